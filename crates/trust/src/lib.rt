// Whom a host trusts: the lines of hosts.equiv and of a .rhosts, and the domain of yp.conf.
#![tactic(auto)]

mod domain;
mod lines;
mod words;

pub use domain::{Domain, read_domain};
pub use lines::TrustLines;
pub use lines::read::{read_equiv, read_rhosts};
pub use words::{TrustLine, TrustWord};
