// Looking things up in the rows of a host's tables.
#![tactic(auto)]

mod accounts;
mod bytes;
mod groups;
mod lines;
mod rows;

pub use accounts::{is_first, numbered, root_account};
pub use groups::{belongs, group_numbered};
pub use lines::some_line_fits;
pub use rows::{home_row, nis_row, owned_by};
