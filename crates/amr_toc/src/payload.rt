use amr_frame::Cell;

/// A payload that is to be written: the codec mode request, how many frame times apart its blocks stand,
/// its number in its interleaving group, and its frames, block by block and within a block in channel
/// order (RFC 4867, 4.3 and 4.4). Without interleaving the stride is 1 and the index 0.
#[derive(Clone, Copy, Debug)]
pub struct Payload<'a> {
    pub cmr: u8,
    pub stride: u8,
    pub index: u8,
    pub cells: &'a [Cell],
}
