// What comes next of records.

/// What comes next of records.
#[derive(Clone, Copy, Debug, PartialEq, Eq)]
pub enum Next<'a> {
    /// A record, its head included.
    Record(&'a [u8]),
    /// The input ended on the edge of a record.
    End,
    /// The input ended inside a record, of which `have` octets came, at least 1, its head included.
    Truncated { have: usize },
    /// As many octets as the limit allows were taken, their whole records were given, and one octet
    /// more came.
    OverLimit,
}

// How far a reader came: a record is lent, or none is whole and nothing more comes.
#[derive(Clone, Copy, Debug, PartialEq, Eq)]
pub(crate) enum Step {
    Record,
    End,
    OverLimit,
}
