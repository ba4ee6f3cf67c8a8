// The worked example of one host called hub, from the bytes of its texts on.
#![tactic(auto)]

mod stands;

pub use stands::hub_stands;
