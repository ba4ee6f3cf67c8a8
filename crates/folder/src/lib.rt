// Reads the folder of a region into an open site: the hosts text, and then each host's texts in the order of their kinds.
#![tactic(auto)]

mod files;
mod stopped;

pub use files::{bytes_of, read_region};
pub use stopped::Stopped;
