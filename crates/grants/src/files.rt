// The slots of writing and of replacing a file.
ghost use Rattle.std.specs.Prelude.{◌≡◌, ℕ};
ghost use Rattle.std.specs.List.{slice_get};
ghost use Rattle.text.specs.Bytes.{and_then};
ghost use Rattle.listing.specs.Rows.{stat_of};
ghost use Rattle.allows.specs.Slots.{by_number, replace_slot, by_file_group, by_anyone, write_slot};
ghost use Rattle.grants.specs.Tables.{tables_of};

use crate::places::HostAt;
use listing::Stat;
use lookups::{group_numbered, numbered};
use region::Right;

impl HostAt<'_> {
    // The number n grants, if an account has it.
    pub fn by_number(self, n: u32, rule: u8) -> Option<(u16, u8)>
        ensures { result ≡ by_number (tables_of self.entry) self.entry.place n rule }
    {
        let i = numbered(self.tables.accounts(), n)?;
        self.grant(Right::Number(i as u8), rule)
    }

    // Rules 1 and 2, of replacing a row. Row 0 is `/`, which nothing holds.
    pub fn replace_slot(self, r: u8, k: u8) -> Option<(u16, u8)>
        ensures { result ≡ and_then (slice_get (tables_of self.entry).files r) (λ x. replace_slot self.entry.place r x k) }
    {
        let row = self.tables.file(r as usize)?;
        match k {
            0 if r != 0 => self.grant(Right::Replace(row.above), 1),
            1 => self.grant(Right::Write(r), 2),
            _ => None,
        }
    }

    // Rule 4: the file's group, if the mode has octal 020.
    fn by_file_group(self, stat: Stat) -> Option<(u16, u8)>
        ensures { result ≡ by_file_group (tables_of self.entry) self.entry.place (stat_of stat) }
    {
        if stat.mode & 0o20 == 0 {
            return None;
        }
        let j = group_numbered(self.tables.groups(), stat.group)?;
        self.grant(Right::Group(j as u8), 4)
    }

    // Rule 5: any user, if the mode has octal 002.
    fn by_anyone(self, stat: Stat) -> Option<(u16, u8)>
        ensures { result ≡ by_anyone self.entry.place (stat_of stat) }
    {
        if stat.mode & 0o2 == 0 {
            return None;
        }
        self.grant(Right::AnyUser, 5)
    }

    // Rules 3 to 5, of writing a row, which grant only where it is present.
    pub fn write_slot(self, r: u8, k: u8) -> Option<(u16, u8)>
        ensures { result ≡ and_then (slice_get (tables_of self.entry).files r) (λ x. and_then x.stat (λ s. write_slot (tables_of self.entry) self.entry.place s k)) }
    {
        let stat = self.tables.file(r as usize)?.stat?;
        match k {
            0 => self.by_number(stat.owner, 3),
            1 => self.by_file_group(stat),
            2 => self.by_anyone(stat),
            _ => None,
        }
    }
}
