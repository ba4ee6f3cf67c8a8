// A site: the hosts of a region. An open site takes texts; a closed one, which wants no text more, answers questions.
#![tactic(auto)]

mod close;
mod closed;
mod open;

pub use close::try_close;
pub use closed::ClosedSite;
pub use open::OpenSite;
