// What comes next in a log.

/// What comes next in a log.
#[derive(Clone, Copy, Debug, PartialEq, Eq)]
pub enum Next<'a> {
    /// A record with a packet of at least one octet.
    Packet(&'a [u8]),
    /// A record with a packet of no octet.
    Null,
    /// The log ended on the edge of a record.
    End,
    /// The log ended inside a record, of which `have` octets came, at least 1, its length included.
    Truncated { have: usize },
    /// As many octets as the limit allows were taken, their whole records were given, and one octet more came.
    OverLimit,
}
