// Reads a script of trial calls, runs them over a source, and prints what each of them did.
#![tactic(auto)]

mod replies;
mod runs;
mod script;

pub use runs::play;
