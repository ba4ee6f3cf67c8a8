// The accounts of a host: 16 at most, in room that is taken when the table is made.
ghost use Rattle.std.specs.Prelude.{◌≡◌, ◌<◌, [], map, length, IfSome, IfOk};
ghost use Rattle.region.specs.Sound.{AccountsSound};
ghost use Rattle.tables.specs.Rows.{account_entry};

pub mod read;

use bounded::BoundedVec;
use std::alloc::{AllocError, Global};
use text::{Name, Path};

// A line of a passwd text.
#[derive(Clone, Copy)]
pub struct Account {
    pub name: Name,
    pub number: u32,
    pub group: u32,
    pub home: Path,
}

#[derive(Drop)]
pub struct Accounts {
    rows: BoundedVec<Account, 16>,
    ghost sound: { AccountsSound (map account_entry rows) },
}

impl Accounts {
    ghost use Rattle.tables.specs.PasswdText.{accounts_of, account_place};

    // An empty table with room for 16 accounts.
    pub fn new(heap: Global) -> Result<Accounts, AllocError>
        ensures { IfOk result (λ t. accounts_of t ≡ []) }
    {
        let rows = BoundedVec::new(heap)?;
        Ok(Accounts { rows })
    }

    // The accounts in the order of their lines.
    pub fn as_slice(&self) -> &[Account]
        ensures { map account_entry result.now ≡ accounts_of self.now }
    {
        self.rows.as_slice()
    }

    // The place of the account of that name.
    pub fn place_of(&self, name: &[u8]) -> Option<usize>
        ensures place { result ≡ account_place name.now (accounts_of self.now) }
        ensures within { IfSome result (λ i. i < length (accounts_of self.now)) }
    {
        self.as_slice().iter().position(|row| row.name.is(name))
    }
}
