// Reads a group text: name, password, number and members, whose places among the accounts are kept.
ghost use Rattle.std.specs.Prelude.{◌≡◌, ℕ, true, List, [], map, length, is_some, is_ok, IfOk};
ghost use Rattle.std.specs.List.{list_any};
ghost use Rattle.std.specs.Option.{option_map};
ghost use Rattle.text.specs.Cuts.{fields, lines};
ghost use Rattle.text.specs.declared.cuts.Mark.TheVariants.{Colon};
ghost use Rattle.region.specs.Sound.{GroupsSound};
ghost use Rattle.region.specs.Tables.{GroupEntry};
ghost use Rattle.reading.specs.Reads.{ok_mapped, text_told, value_or};
ghost use Rattle.reading.specs.declared.fault.Kind.TheVariants.{Group as GroupKind};
ghost use Rattle.tables.specs.Rows.{group_entry};
ghost use Rattle.tables.specs.PasswdText.{accounts_of};
ghost use Rattle.tables.specs.MemberLaws.{LineByLine, ListedExactly};
ghost use Rattle.tables.specs.GroupText.{groups_of, group_fields, four_fields, group_head, group_head_in, GroupHeadFormed, group_given, group_step, groups_in};

use super::members::{are_names, listed_in};
use super::{Group, Groups};
use crate::accounts::Accounts;
use crate::names::is_reserved;
use reading::{Kind, Refusal, Table, TextFault, read_text};
use text::{Mark, Name, fields, number_of};

// The fields of a line that are kept.
#[derive(Clone, Copy)]
struct Entry<'a> {
    name: &'a [u8],
    number: &'a [u8],
    members: &'a [u8],
}

fn entry_of<'a>(line: &'a [u8]) -> Option<Entry<'a>>
    ensures { option_map group_fields result ≡ four_fields (fields Colon line.now) }
{
    let mut parts = fields(line, Mark::Colon);
    let name = parts.next()?;
    let _password = parts.next()?;
    let number = parts.next()?;
    let members = parts.next()?;
    if parts.next().is_some() {
        return None;
    }
    Some(Entry {
        name,
        number,
        members,
    })
}

// The name and the number that a line gives a group.
#[derive(Clone, Copy)]
struct Head {
    name: Name,
    number: u32,
}

fn head_of(kept: Entry) -> Result<Head, Refusal>
    ensures value { ok_mapped group_head result ≡ group_head_in (group_fields kept.entry) }
    ensures formed { IfOk result (λ h. GroupHeadFormed (group_head h)) }
{
    if is_reserved(kept.name) {
        return Err(Refusal::NotCovered);
    }
    let name = Name::new(kept.name).ok_or(Refusal::BadName)?;
    if !are_names(kept.members) {
        return Err(Refusal::BadName);
    }
    let number = number_of(kept.number).ok_or(Refusal::BadNumber)?;
    Ok(Head { name, number })
}

// Whether a group has the name or the number.
fn is_given(rows: &[Group], name: &[u8], number: u32) -> bool
    ensures { result ≡ list_any (group_given name.now number) (map group_entry rows.now) }
{
    rows.iter()
        .any(|row| row.number == number || row.name.is(name))
}

impl Table for Groups {
    type Beside = Accounts;

    ghost Seen = { List GroupEntry };

    ghost seen = { λ t. groups_of t };

    ghost first = { [] };

    ghost step = { λ accounts rows l. group_step (accounts_of accounts) rows l };

    fn clear(&mut self) {
        self.rows.clear();
    }

    fn line(&mut self, accounts: &Accounts, line: &[u8]) -> Result<(), Refusal> {
        let kept = entry_of(line).ok_or(Refusal::Fields)?;
        let head = head_of(kept)?;
        if is_given(self.rows.as_slice(), head.name.as_slice(), head.number) {
            return Err(Refusal::Given);
        }
        let listed = listed_in(accounts, kept.members)?;
        self.rows.push(Group {
            name: head.name,
            number: head.number,
            listed,
        })?;
        Ok(())
    }
}

// Puts the groups of a group text in place of those in the table; a text that is refused leaves it empty.
pub fn read_groups(accounts: &Accounts, groups: &mut Groups, text: &[u8]) -> Result<(), TextFault>
    ensures told { result ≡ text_told GroupKind (groups_in (accounts_of accounts.now) text.now) }
    ensures held { groups_of groups.new ≡ value_or [] (groups_in (accounts_of accounts.now) text.now) }
    ensures sound { GroupsSound (groups_of groups.new) }
    ensures counted { is_ok result ≡ true → length (groups_of groups.new) ≡ length (lines text.now) }
    ensures members { is_ok result ≡ true → LineByLine (ListedExactly (accounts_of accounts.now)) (lines text.now) (groups_of groups.new) }
{
    read_text(Kind::Group, groups, accounts, text)
}
