// Whom an account lets in without a password.
ghost use Rattle.std.specs.Prelude.{◌≡◌, ℕ, map};
ghost use Rattle.std.specs.List.{list_any};
ghost use Rattle.trust.specs.Rows.{trust_entry};
ghost use Rattle.allows.specs.Slots.{by_trust};
ghost use Rattle.allows.specs.Trust.{line_fits, own_rhosts, by_equiv, by_rhosts, trusting_rule};
ghost use Rattle.grants.specs.Tables.{site_of, tables_of, entry_of};

use crate::places::{AccountAt, HostAt};
use lookups::{owned_by, some_line_fits};
use region::Right;
use trust::TrustLine;

impl AccountAt<'_> {
    // Whether the .rhosts in the home is present and is owned by the account's number.
    fn has_own_rhosts(self) -> bool
        ensures { result ≡ own_rhosts (tables_of self.entry.host) (entry_of self.entry) }
    {
        self.home_row(b"/.rhosts")
            .and_then(|r| self.host.tables.file(r))
            .is_some_and(|row| owned_by(self.account.number, row.stat))
    }

    // Whether some line lets the user in.
    fn is_let_in(self, lines: &[TrustLine], user: AccountAt) -> bool
        ensures { result ≡ list_any (line_fits (tables_of user.entry.host) (entry_of user.entry) (entry_of self.entry)) (map trust_entry lines.now) }
    {
        some_line_fits(
            lines,
            user.host.tables.name(),
            &user.account.name,
            &self.account.name,
        )
    }

    // Whether hosts.equiv lets the user in, which it never does into number 0.
    fn is_let_in_by_equiv(self, user: AccountAt) -> bool
        ensures { result ≡ by_equiv (tables_of self.entry.host) (entry_of self.entry) (tables_of user.entry.host) (entry_of user.entry) }
    {
        self.account.number != 0 && self.is_let_in(self.host.tables.equiv(), user)
    }

    // Whether the account's .rhosts lets the user in.
    fn is_let_in_by_rhosts(self, user: AccountAt) -> bool
        ensures { result ≡ by_rhosts (tables_of self.entry.host) self.entry.place (entry_of self.entry) (tables_of user.entry.host) (entry_of user.entry) }
    {
        self.is_let_in(self.host.tables.rhosts(self.place as usize), user) && self.has_own_rhosts()
    }

    // The rule by which the user is let in.
    fn trusting_rule(self, user: AccountAt) -> Option<u8>
        ensures { result ≡ trusting_rule (tables_of self.entry.host) self.entry.place (entry_of self.entry) (tables_of user.entry.host) (entry_of user.entry) }
    {
        if self.is_let_in_by_equiv(user) {
            return Some(10);
        }
        self.is_let_in_by_rhosts(user).then_some(11)
    }

    // Rules 10 and 11: the name of account j of host n, if it is let in.
    pub fn by_trust(self, n: u8, j: u8) -> Option<(u16, u8)>
        ensures { result ≡ by_trust (site_of self.entry.host) (tables_of self.entry.host) self.entry.place (entry_of self.entry) n j }
    {
        let host = HostAt::new(self.host.hosts, n)?;
        let user = host.account(j)?;
        let rule = self.trusting_rule(user)?;
        host.grant(Right::Name(j), rule)
    }
}
