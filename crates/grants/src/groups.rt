// The slots of a group, and the NIS maps.
ghost use Rattle.std.specs.Prelude.{◌≡◌, ℕ, ◌-◌, ◌<◌, IfSome};
ghost use Rattle.std.specs.List.{slice_get};
ghost use Rattle.text.specs.Bytes.{and_then};
ghost use Rattle.text.specs.Kept.{name_bytes};
ghost use Rattle.tables.specs.Rows.{group_entry};
ghost use Rattle.allows.specs.Paths.{nis_map};
ghost use Rattle.allows.specs.Slots.{row_of, by_nis_map, by_member, group_slot};
ghost use Rattle.grants.specs.Tables.{site_of, tables_of};

use crate::places::HostAt;
use lookups::{belongs, nis_row};
use region::Right;
use tables::Group;
use text::Name;

// The row of /etc/group.
const GROUP_ROW: u8 = 3;

impl HostAt<'_> {
    // The row of a NIS map of a domain, present or not.
    fn nis_row(self, domain: &Name, file: &[u8]) -> Option<usize>
        ensures place { result ≡ row_of (tables_of self.entry) (nis_map (name_bytes domain.now) file.now) }
        ensures bound { IfSome result (λ r. r < 64) }
    {
        nis_row(self.tables.files(), domain, file)
    }

    // To replace a NIS map at the server of the host's domain grants.
    pub fn by_nis_map(self, file: &[u8], rule: u8) -> Option<(u16, u8)>
        ensures { result ≡ by_nis_map (site_of self.entry) (tables_of self.entry) file.now rule }
    {
        let domain = self.tables.domain()?;
        let server = HostAt::new(self.hosts, domain.server)?;
        let r = server.nis_row(&domain.name, file)?;
        server.grant(Right::Replace(r as u8), rule)
    }

    // Rule 23: the number of account i, if it belongs to the group.
    fn by_member(self, group: &Group, i: u8) -> Option<(u16, u8)>
        ensures { result ≡ by_member (tables_of self.entry) self.entry.place (group_entry group.now) i }
    {
        let account = self.tables.account(i as usize)?;
        if !belongs(group, i as usize, account) {
            return None;
        }
        self.by_number(account.number, 23)
    }

    // Rules 21 to 23, of a group.
    pub fn group_slot(self, j: u8, k: u8) -> Option<(u16, u8)>
        ensures { result ≡ and_then (slice_get (tables_of self.entry).groups j) (λ b. group_slot (site_of self.entry) (tables_of self.entry) self.entry.place b k) }
    {
        let group = self.tables.group(j as usize)?;
        match k {
            0 => self.grant(Right::Replace(GROUP_ROW), 21),
            1 => self.by_nis_map(b"/group.bygid.pag", 22),
            _ => self.by_member(group, k - 2),
        }
    }
}
