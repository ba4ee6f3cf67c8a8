// Reads a passwd text: seven fields between colons, of which name, number, group and home are kept.
ghost use Rattle.std.specs.Prelude.{◌≡◌, ℕ, ◌<◌, true, List, [], map, length, IfSome, is_ok, IfOk};
ghost use Rattle.std.specs.Option.{option_map};
ghost use Rattle.text.specs.Cuts.{fields, lines};
ghost use Rattle.text.specs.declared.cuts.Mark.TheVariants.{Colon};
ghost use Rattle.region.specs.Sound.{AccountFormed, AccountsSound};
ghost use Rattle.region.specs.Tables.{AccountEntry};
ghost use Rattle.reading.specs.Reads.{ok_mapped, text_told, value_or};
ghost use Rattle.reading.specs.declared.fault.Kind.TheVariants.{Passwd};
ghost use Rattle.tables.specs.Rows.{account_entry};
ghost use Rattle.tables.specs.PasswdText.{accounts_of, account_line, seven_fields, account_in, account_place, account_step, accounts_in};

use super::{Account, Accounts};
use crate::names::is_reserved;
use reading::{Kind, Refusal, Table, TextFault, read_text};
use text::{Mark, Name, Path, fields, number_of};

// The fields of a line that are kept.
#[derive(Clone, Copy)]
struct Entry<'a> {
    name: &'a [u8],
    number: &'a [u8],
    group: &'a [u8],
    home: &'a [u8],
}

fn entry_of<'a>(line: &'a [u8]) -> Option<Entry<'a>>
    ensures { option_map account_line result ≡ seven_fields (fields Colon line.now) }
{
    let mut parts = fields(line, Mark::Colon);
    let name = parts.next()?;
    let _password = parts.next()?;
    let number = parts.next()?;
    let group = parts.next()?;
    let _comment = parts.next()?;
    let home = parts.next()?;
    let _shell = parts.next()?;
    if parts.next().is_some() {
        return None;
    }
    Some(Entry {
        name,
        number,
        group,
        home,
    })
}

fn account_of(line: &[u8]) -> Result<Account, Refusal>
    ensures value { ok_mapped account_entry result ≡ account_in line.now }
    ensures formed { IfOk result (λ a. AccountFormed (account_entry a)) }
{
    let entry = entry_of(line).ok_or(Refusal::Fields)?;
    if is_reserved(entry.name) {
        return Err(Refusal::NotCovered);
    }
    let name = Name::new(entry.name).ok_or(Refusal::BadName)?;
    let home = Path::new(entry.home).ok_or(Refusal::BadName)?;
    let number = number_of(entry.number).ok_or(Refusal::BadNumber)?;
    let group = number_of(entry.group).ok_or(Refusal::BadNumber)?;
    Ok(Account {
        name,
        number,
        group,
        home,
    })
}

impl Table for Accounts {
    type Beside = ();

    ghost Seen = { List AccountEntry };

    ghost seen = { λ t. accounts_of t };

    ghost first = { [] };

    ghost step = { λ _ rows l. account_step rows l };

    fn clear(&mut self) {
        self.rows.clear();
    }

    fn line(&mut self, _beside: &(), line: &[u8]) -> Result<(), Refusal> {
        let account = account_of(line)?;
        if self.place_of(account.name.as_slice()).is_some() {
            return Err(Refusal::Given);
        }
        self.rows.push(account)?;
        Ok(())
    }
}

// Puts the accounts of a passwd text in place of those in the table; a text that is refused leaves it empty.
pub fn read_accounts(accounts: &mut Accounts, text: &[u8]) -> Result<(), TextFault>
    ensures told { result ≡ text_told Passwd (accounts_in text.now) }
    ensures held { accounts_of accounts.new ≡ value_or [] (accounts_in text.now) }
    ensures sound { AccountsSound (accounts_of accounts.new) }
    ensures counted { is_ok result ≡ true → length (accounts_of accounts.new) ≡ length (lines text.now) }
{
    read_text(Kind::Passwd, accounts, &(), text)
}
