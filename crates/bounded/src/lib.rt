// Lists of bounded length: one that owns the places of its items and allocates nothing, and one that takes its room when it is made.
#![tactic(auto)]

mod list;
mod vec;

pub use list::ArrayVec;
pub use vec::{BoundedVec, Full};
