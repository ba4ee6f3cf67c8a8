// The operation grant matrix: which of a number of operations grants which.
#![tactic(auto)]

mod forms;
mod grants;
pub mod refusal;
mod table;

pub use table::Matrix;
