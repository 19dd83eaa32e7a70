// How far a reader of storage files comes.

use spec_store::StoreRefusal;

/// What a call for the next part of a storage file answers.
#[derive(Clone, Copy, Debug, PartialEq, Eq)]
pub enum Step {
    /// The header is well, or the next block was given.
    Ready,
    /// The file ended on the edge of a block.
    End,
    /// The file is refused.
    Refused(StoreRefusal),
    /// As many octets as the limit allows were taken. They neither hold the next part nor show why
    /// the file is refused, and one octet more came.
    OverLimit,
}

// How far a file is read.
#[derive(Clone, Copy, Debug, PartialEq, Eq)]
pub(crate) enum Phase {
    // The header isn't read.
    Fresh,
    // Blocks are given.
    Open,
    // The file ended on the edge of a block.
    Ended,
    // The file was refused, the limit was passed, or a read failed.
    Spent,
}

// What octets show of the header of a file, or of the next block.
#[derive(Clone, Copy, Debug, PartialEq, Eq)]
pub(crate) enum Sight {
    // They are less than it, and `at` octets of them are whole frames.
    Part { at: usize },
    // It is whole, and takes so many octets.
    Whole { len: usize },
    // It is at fault.
    Refused(StoreRefusal),
}

// What came of reading until that was shown.
#[derive(Clone, Copy, Debug, PartialEq, Eq)]
pub(crate) enum Found {
    // It is whole, and takes so many octets.
    Whole { len: usize },
    // It is at fault, whatever follows.
    Shown(StoreRefusal),
    // The file ended in it.
    Cut(StoreRefusal),
    // The file ended before the next block.
    End,
    // One octet came past the limit.
    OverLimit,
}
