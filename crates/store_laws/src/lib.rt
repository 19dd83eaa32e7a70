//! Laws of the definitions of storage files (RFC 4867, 5): each is the contract of a function that
//! does nothing.
#![tactic(auto)]

mod edges;
mod fronts;
mod grammar;

pub use edges::{
    a_block_behind_a_file_is_read, a_part_of_a_block_shows_nothing,
    a_reserved_type_is_named_at_its_place,
};
pub use fronts::{what_is_shown_stays, whole_blocks_stay};
pub use grammar::{reads_exactly_the_grammar, reads_the_grammar, what_is_written_is_read};
