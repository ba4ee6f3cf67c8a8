// What the tables of a host hold.
ghost use Rattle.std.specs.Prelude.{◌≡◌, ◌≤◌, false, map, length, slice_index_or};
ghost use Rattle.std.specs.List.{slice_get};
ghost use Rattle.std.specs.Option.{option_map};
ghost use Rattle.text.specs.Kept.{name_bytes};
ghost use Rattle.tables.specs.Rows.{account_entry, group_entry};
ghost use Rattle.listing.specs.Rows.{file_entry};
ghost use Rattle.trust.specs.Rows.{trust_entry};
ghost use Rattle.trust.specs.DomainText.{domain_of};
ghost use Rattle.allows.specs.Trust.{rhosts_of};
ghost use Rattle.host.specs.Tables.{host_tables};

use super::Host;
use listing::FileRow;
use tables::{Account, Group};
use text::Name;
use trust::{Domain, TrustLine};

impl Host {
    // What the host is called.
    pub fn name(&self) -> &Name
        ensures { name_bytes result.now ≡ (host_tables self.now).name }
    {
        &self.name
    }

    // The bounds stand in clauses, since a slice or a number that is handed out has no field to keep them in.

    // The accounts in the order of their lines.
    pub fn accounts(&self) -> &[Account]
        ensures entries { map account_entry result.now ≡ (host_tables self.now).accounts }
        ensures count { length result.now ≡ length (host_tables self.now).accounts }
        ensures few { length result.now ≤ 16 }
    {
        self.accounts.table.as_slice()
    }

    // The groups in the order of their lines.
    pub fn groups(&self) -> &[Group]
        ensures entries { map group_entry result.now ≡ (host_tables self.now).groups }
        ensures count { length result.now ≡ length (host_tables self.now).groups }
        ensures few { length result.now ≤ 16 }
    {
        self.groups.table.as_slice()
    }

    // The file rows by their places.
    pub fn files(&self) -> &[FileRow]
        ensures entries { map file_entry result.now ≡ (host_tables self.now).files }
        ensures count { length result.now ≡ length (host_tables self.now).files }
        ensures few { length result.now ≤ 64 }
    {
        self.files.table.as_slice()
    }

    // The account at a place.
    pub fn account(&self, i: usize) -> Option<&Account>
        ensures { option_map (λ a. account_entry a.now) result ≡ slice_get (host_tables self.now).accounts i }
    {
        self.accounts().get(i)
    }

    // The group at a place.
    pub fn group(&self, j: usize) -> Option<&Group>
        ensures { option_map (λ g. group_entry g.now) result ≡ slice_get (host_tables self.now).groups j }
    {
        self.groups().get(j)
    }

    // The file row at a place.
    pub fn file(&self, place: usize) -> Option<&FileRow>
        ensures { option_map (λ x. file_entry x.now) result ≡ slice_get (host_tables self.now).files place }
    {
        self.files().get(place)
    }

    // How many accounts there are.
    pub fn account_count(&self) -> usize
        ensures value { result ≡ length (host_tables self.now).accounts }
        ensures bound { result ≤ 16 }
    {
        self.accounts().len()
    }

    // How many groups there are.
    pub fn group_count(&self) -> usize
        ensures value { result ≡ length (host_tables self.now).groups }
        ensures bound { result ≤ 16 }
    {
        self.groups().len()
    }

    // How many file rows there are, present or not.
    pub fn file_count(&self) -> usize
        ensures value { result ≡ length (host_tables self.now).files }
        ensures bound { result ≤ 64 }
    {
        self.files().len()
    }

    // The lines of hosts.equiv.
    pub fn equiv(&self) -> &[TrustLine]
        ensures { map trust_entry result.now ≡ (host_tables self.now).equiv }
    {
        self.equiv.table.as_slice()
    }

    // The lines of the .rhosts of an account.
    pub fn rhosts(&self, account: usize) -> &[TrustLine]
        ensures { map trust_entry result.now ≡ rhosts_of (host_tables self.now) account }
    {
        self.rhosts
            .get(account)
            .map_or(&[], |rhosts| rhosts.table.as_slice())
    }

    // Whether the .rhosts of an account has been read.
    pub(crate) fn has_rhosts(&self, account: usize) -> bool
        ensures { result ≡ slice_index_or (host_tables self.now).rhosts_read account false }
    {
        self.rhosts.get(account).is_some_and(|rhosts| rhosts.read)
    }

    // The domain of yp.conf, if it names one.
    pub fn domain(&self) -> Option<Domain>
        ensures { domain_of result ≡ (host_tables self.now).domain }
    {
        self.domain.table
    }
}
