// A host of a site and an account of a host, each with its place, and what a slot holds.
ghost use Rattle.std.specs.Prelude.{◌≡◌, IfSome, map};
ghost use Rattle.std.specs.List.{slice_get};
ghost use Rattle.std.specs.Option.{option_map};
ghost use Rattle.allows.specs.Slots.{grant};
ghost use Rattle.host.specs.Tables.{host_tables};

use host::Host;
use region::{Privilege, Right};
use tables::Account;

// The host at a place of a site, among all the site's hosts.
#[derive(Clone, Copy)]
pub struct HostAt<'a> {
    pub hosts: &'a [Host],
    pub tables: &'a Host,
    pub place: u8,
}

// The account at a place of a host.
#[derive(Clone, Copy)]
pub struct AccountAt<'a> {
    pub host: HostAt<'a>,
    pub account: &'a Account,
    pub place: u8,
}

impl<'a> HostAt<'a> {
    ghost use Rattle.grants.specs.Tables.{tables_of, entry_of};

    // The host at a place, if there is one.
    pub fn new(hosts: &'a [Host], place: u8) -> Option<HostAt<'a>>
        ensures tables { option_map tables_of result ≡ slice_get (map host_tables hosts.now) place }
        ensures place { IfSome result (λ h. (h.hosts.now ≡ hosts.now) × (h.place ≡ place)) }
    {
        let tables = hosts.get(place as usize)?;
        Some(HostAt {
            hosts,
            tables,
            place,
        })
    }

    // The account at a place, if there is one.
    pub fn account(self, place: u8) -> Option<AccountAt<'a>>
        ensures entry { option_map entry_of result ≡ slice_get (tables_of self.entry).accounts place }
        ensures place { IfSome result (λ a. (a.host ≡ self.entry) × (a.place ≡ place)) }
    {
        let account = self.tables.account(place as usize)?;
        Some(AccountAt {
            host: self,
            account,
            place,
        })
    }

    // A right at the host grants by the rule.
    pub fn grant(self, right: Right, rule: u8) -> Option<(u16, u8)>
        ensures { result ≡ grant self.entry.place right rule }
    {
        Some((
            u16::from(Privilege {
                host: self.place,
                right,
            }),
            rule,
        ))
    }
}
