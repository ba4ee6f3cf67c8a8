// Lines, fields, words, names, paths, numbers and modes: what the bytes of a text are.
#![tactic(auto)]

mod cuts;
mod kept;
mod names;
mod numbers;
mod parts;
mod paths;

pub use cuts::{Mark, cut, next_line, next_word, split_once};
pub use kept::{Name, Path};
pub use names::is_name;
pub use numbers::{mode_of, number_of};
pub use parts::{FieldsLeft, LinesLeft, WordsLeft, fields, lines, words};
pub use paths::{is_path, parent_of};
