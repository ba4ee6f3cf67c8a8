// Layers over any rule source: grants that are assumed, and privileges that are barred.
#![tactic(auto)]

pub mod assumed;
pub mod barred;
mod entries;
mod forms;
pub mod refusal;
