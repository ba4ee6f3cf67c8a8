// What the slots of a site's privileges hold, by the rules.
#![tactic(auto)]

mod files;
mod groups;
mod lives;
mod numbers;
mod others;
mod places;
mod slots;
mod trusted;

pub use lives::is_live;
pub use slots::live_slot;
