// The listing of a host's files, in the layout of mtree(5), and the table of its file rows.
#![tactic(auto)]

mod entry;
mod files;
mod row;
mod words;

pub use files::Files;
pub use files::table::read_files;
pub use row::{FileRow, Stat};
