// Asks one question of a bare trial over a named source, and prints the answer.
#![tactic(auto)]

mod asked;
mod lines;

pub use asked::{Outcome, answer, print_reply, refuse};
pub use lines::{held_alone, held_at, start_and_goal};
