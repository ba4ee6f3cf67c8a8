// Rule sources, their printed forms, and the measures by which chains are weighed.
#![tactic(auto)]

pub mod measure;
pub mod named;
pub mod source;
pub mod weights;
