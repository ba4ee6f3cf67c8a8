// A host is made and cleared, and says which of its texts are wanted.
ghost use Rattle.std.specs.Prelude.{◌≡◌, ℕ, List, [], map, replicate, false, IfOk};
ghost use Rattle.text.specs.Kept.{name_bytes};
ghost use Rattle.host.specs.Tables.{lines_of, host_tables, unread_tables};
ghost use Rattle.host.specs.Wanted.{first_unread_with, first_unread};

use super::Host;
use crate::text_table::TextTable;
use listing::Files;
use reading::{Kind, Table};
use std::alloc::{AllocError, Global};
use std::array;
use tables::{Accounts, Groups};
use text::Name;
use trust::TrustLines;

// The .rhosts of 16 accounts, unread.
fn unread_rhosts(heap: Global) -> Result<[TextTable<TrustLines<4>>; 16], AllocError>
    ensures lines { IfOk result (λ list. map lines_of list ≡ replicate 16 []) }
    ensures read { IfOk result (λ list. map (λ x. x.read) list ≡ replicate 16 false) }
{
    array::try_from_fn(|_| Ok(TextTable::unread(TrustLines::new(heap)?)))
}

// Makes each of them unread.
fn clear_rhosts(list: &mut [TextTable<TrustLines<4>>; 16])
    ensures lines { map lines_of list.new ≡ replicate 16 [] }
    ensures read { map (λ x. x.read) list.new ≡ replicate 16 false }
{
    for rhosts in list.iter_mut() {
        rhosts.clear(TrustLines::clear);
    }
}

impl Host {
    // A host with room for all its tables, none of whose texts has been read.
    pub fn new(heap: Global, name: Name) -> Result<Host, AllocError>
        ensures { IfOk result (λ h. host_tables h ≡ unread_tables (name_bytes name)) }
    {
        let accounts = TextTable::unread(Accounts::new(heap)?);
        let groups = TextTable::unread(Groups::new(heap)?);
        let files = TextTable::unread(Files::new(heap)?);
        let equiv = TextTable::unread(TrustLines::new(heap)?);
        let domain = TextTable::unread(None);
        let rhosts = unread_rhosts(heap)?;
        Ok(Host {
            name,
            accounts,
            groups,
            files,
            equiv,
            domain,
            rhosts,
        })
    }

    // Makes all texts unread and their tables as on the first day.
    pub fn clear(&mut self)
        ensures { host_tables self.new ≡ unread_tables (host_tables self.old).name }
    {
        self.accounts.clear(Accounts::clear);
        self.groups.clear(Groups::clear);
        self.files.clear(Files::clear);
        self.equiv.clear(TrustLines::clear);
        self.domain.clear(|domain| *domain = None);
        clear_rhosts(&mut self.rhosts);
    }

    // Takes a name, and is as on the first day.
    pub fn begin(&mut self, name: Name)
        ensures { host_tables self.new ≡ unread_tables (name_bytes name) }
    {
        self.name = name;
        self.clear();
    }

    // The kind of the first text that is wanted and has not been read, where it is known whether some .rhosts is.
    fn first_unread_with(&self, rhosts: bool) -> Option<Kind>
        ensures { result ≡ first_unread_with (host_tables self.now) rhosts }
    {
        let texts = [
            (Kind::Passwd, !self.accounts.read),
            (Kind::Group, !self.groups.read),
            (Kind::Mtree, !self.files.read),
            (Kind::Equiv, !self.equiv.read),
            (Kind::Ypconf, !self.domain.read),
            (Kind::Rhosts, rhosts),
        ];
        texts
            .iter()
            .find(|(_, wanted)| *wanted)
            .map(|(kind, _)| *kind)
    }

    // The kind of the first text that is wanted and has not been read. The homes are looked through only where all the others have been.
    pub fn first_unread(&self) -> Option<Kind>
        ensures { result ≡ first_unread (host_tables self.now) }
    {
        if let Some(kind) = self.first_unread_with(false) {
            return Some(kind);
        }
        self.first_unread_with(self.wants_rhosts())
    }
}
