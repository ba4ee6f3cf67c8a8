// The question: the least chain from a held privilege to a target, over any source and by any measure.
#![tactic(auto)]

pub mod answer;
mod board;
mod guard;
mod judge;
pub mod question;
mod write;
