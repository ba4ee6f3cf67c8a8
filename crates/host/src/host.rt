// What a host owns: all its memory is taken when it is made.
mod entries;
mod homes;
mod reads;
mod texts;

use crate::text_table::TextTable;
use listing::Files;
use tables::{Accounts, Groups};
use text::Name;
use trust::{Domain, TrustLines};

// A .rhosts has the place of its account.
#[derive(Drop)]
pub struct Host {
    name: Name,
    accounts: TextTable<Accounts>,
    groups: TextTable<Groups>,
    files: TextTable<Files>,
    equiv: TextTable<TrustLines<16>>,
    domain: TextTable<Option<Domain>>,
    rhosts: [TextTable<TrustLines<4>>; 16],
}
