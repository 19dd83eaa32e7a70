// What a fill of an inlet brings, and whether more may come.

/// What a fill of an inlet brought.
#[derive(Clone, Copy, Debug, PartialEq, Eq)]
pub enum Filled {
    /// `count` octets, at least one, were appended to those held.
    More { count: usize },
    /// The source is at its end.
    End,
    /// As many octets as the limit allows were taken, and the source gave one more.
    OverLimit,
}

/// Whether more octets may come into an inlet.
#[derive(Clone, Copy, Debug, PartialEq, Eq)]
pub enum Gate {
    /// The next fill reads.
    Open,
    /// A read gave none: each further fill answers `End` without a read.
    End,
    /// One octet came past the limit: each further fill answers `OverLimit` without a read.
    OverLimit,
    /// A read failed: no further fill may be made.
    Spent,
}
