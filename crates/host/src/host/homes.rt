// Which .rhosts in the homes of accounts have not been read.
ghost use Rattle.std.specs.Prelude.{◌≡◌};
ghost use Rattle.tables.specs.Rows.{account_entry};
ghost use Rattle.host.specs.Tables.{host_tables};
ghost use Rattle.host.specs.Wanted.{wants_rhosts_of, wants_rhosts};

use super::Host;
use lookups::home_row;
use tables::Account;

impl Host {
    fn wants_rhosts_of(&self, place: usize, account: &Account) -> bool
        ensures { result ≡ wants_rhosts_of (host_tables self.now) place (account_entry account.now) }
    {
        !self.has_rhosts(place) && home_row(self.files(), &account.home, b"/.rhosts").is_some()
    }

    // Whether some account has a .rhosts in its home that has not been read.
    pub(crate) fn wants_rhosts(&self) -> bool
        ensures { result ≡ wants_rhosts (host_tables self.now) }
    {
        self.accounts()
            .iter()
            .enumerate()
            .any(|(i, account)| self.wants_rhosts_of(i, account))
    }
}
