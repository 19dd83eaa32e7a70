/// The two speech codecs: AMR (narrowband, 8 kHz) and AMR-WB (wideband, 16 kHz).
#[derive(Clone, Copy, Debug, PartialEq, Eq)]
pub enum Codec {
    Amr,
    AmrWb,
}

/// What a frame type stands for.
#[derive(Clone, Copy, Debug, PartialEq, Eq)]
pub enum Kind {
    /// A speech mode.
    Speech,
    /// A silence descriptor (SID), for comfort noise.
    Sid,
    /// SPEECH_LOST of AMR-WB: a frame that was lost before it was sent.
    Lost,
    /// NO_DATA: nothing was sent or received for this frame time.
    Empty,
    /// No frame has this type.
    Reserved,
}
