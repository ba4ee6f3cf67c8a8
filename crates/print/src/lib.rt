// The bytes of every line that a program prints.
#![tactic(auto)]

mod forms;
mod lines;
mod numbers;
mod refused;

pub use forms::privilege_of;
pub use lines::{no_chain_line, plan_line, refusal_line};
pub use numbers::put_number;
pub use refused::Refused;
