// How a text is read: line by line into a table, up to the first line that is refused.
#![tactic(auto)]

mod fault;
mod table;

pub use fault::{Kind, LineFault, NoKind, Refusal, SiteFault, TextFault, at};
pub use table::{Table, is_passed_over, read_text};
