//! The bounded receiver: packets in any order go in, and the blocks of a session come out in their order, each
//! frame the best of its copies in time, from memory that is reserved at the start.
#![tactic(auto)]

mod answers;
mod block;
mod merge;
mod plan;
mod receiver;
mod ring;
mod session;
mod shares;
mod step;
mod verdict;
mod window;

pub use answers::{Kept, Offered, Refusal, Taken};
pub use plan::{Plan, PlanFault};
pub use receiver::Receiver;
pub use session::Begun;
