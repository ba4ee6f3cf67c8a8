// The tables that a region's texts are read into: hosts, and for each host its accounts and its groups.
// Each is a type of its own: it says in its ghost field what is sound of its rows, and a group's members are looked up only past the test for its name
// and number, so one table generic over the row would need a trait as long as what is alike here, a line each over BoundedVec.
#![tactic(auto)]

mod accounts;
mod groups;
mod hosts;
mod names;

pub use accounts::read::read_accounts;
pub use accounts::{Account, Accounts};
pub use groups::read::read_groups;
pub use groups::{Group, Groups};
pub use hosts::HostNames;
pub use hosts::read::read_hosts;
