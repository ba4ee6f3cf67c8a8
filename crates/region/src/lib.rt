// A region's tables as plain records, and its privileges by number.
#![tactic(auto)]

mod numbering;
mod privilege;

pub use numbering::{NotAtOneHost, ROOT_ANYWHERE};
pub use privilege::{Privilege, Right};
