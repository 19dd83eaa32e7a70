use crate::param::Param;
use thiserror::Error;

/// Why a text of media parameters is refused. Its pieces are tested from the left, each by F1 to
/// F3 in this order, and F4 after all of them.
#[derive(Clone, Copy, Debug, PartialEq, Eq, Error)]
pub enum FmtpRefusal {
    /// F1: a piece has no name.
    #[error("a parameter has no name")]
    NoName,
    /// F2: this parameter has a value that it can't have.
    #[error("a parameter has a value that isn't allowed")]
    BadValue { param: Param },
    /// F3: this parameter stands a second time.
    #[error("a parameter stands twice")]
    Repeated { param: Param },
    /// F4: `octet-align=0` stands beside CRCs, sorting or interleaving.
    #[error("CRCs, sorting and interleaving need octet alignment")]
    Contradiction,
}
