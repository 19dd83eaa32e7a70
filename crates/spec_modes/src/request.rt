/// What a codec mode request of 4 bits asks for (RFC 4867, 4.3.1).
#[derive(Clone, Copy, Debug, PartialEq, Eq)]
pub enum Request {
    /// 15: no mode is asked for.
    None,
    /// The speech mode that is asked for.
    Mode(u8),
    /// Neither 15 nor a speech mode of the codec: it is ignored.
    Ignored,
}
