// A host: the tables that its texts are read into, and which of its texts have been read.
#![tactic(auto)]

mod host;
mod text_table;
mod turn;

pub use host::Host;
pub use text_table::TextTable;
pub use turn::in_turn;
