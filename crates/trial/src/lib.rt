// Trials: what if this were granted, and that barred? Answers agree with a plain ledger of what was assumed and barred.
#![tactic(auto)]

pub mod calls;
pub mod prepared;
pub mod prepared_calls;
pub mod runs;
pub mod trials;
