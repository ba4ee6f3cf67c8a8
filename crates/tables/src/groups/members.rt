// The members of a group, between commas.
ghost use Rattle.std.specs.Prelude.{◌≡◌};
ghost use Rattle.std.specs.List.{list_all};
ghost use Rattle.text.specs.Bytes.{name};
ghost use Rattle.tables.specs.GroupText.{members, listed_in};
ghost use Rattle.tables.specs.PasswdText.{accounts_of};

use crate::accounts::Accounts;
use reading::Refusal;
use text::{Mark, fields, is_name};

// Whether each member is a name.
pub fn are_names(list: &[u8]) -> bool
    ensures { result ≡ list_all name (members list.now) }
{
    list.is_empty() || fields(list, Mark::Comma).all(|member| is_name(member))
}

// Which of the accounts are members.
pub fn listed_in(accounts: &Accounts, list: &[u8]) -> Result<[bool; 16], Refusal>
    ensures { result ≡ listed_in (accounts_of accounts.now) (members list.now) }
{
    let mut listed = [false; 16];
    if list.is_empty() {
        return Ok(listed);
    }
    for member in fields(list, Mark::Comma) {
        let place = accounts.place_of(member).ok_or(Refusal::Unknown)?;
        listed[place] = true;
    }
    Ok(listed)
}
