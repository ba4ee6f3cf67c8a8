// What a site allows, over its tables.
#![tactic(auto)]

mod exact;

pub use exact::{allowed_exactly, hub_slots};
