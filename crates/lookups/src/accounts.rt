// Accounts by number and by name.
ghost use Rattle.std.specs.Prelude.{◌≡◌, ℕ, ◌+◌, ◌<◌, map, length, codes, IfSome, position};
ghost use Rattle.std.specs.Str.{bytes_eq};
ghost use Rattle.tables.specs.Rows.{account_entry};
ghost use Rattle.allows.specs.Live.{numbered, is_first};

use tables::Account;

// The place of the first account with a number.
pub fn numbered(rows: &[Account], n: u32) -> Option<usize>
    ensures place { result ≡ numbered n (map account_entry rows.now) }
    ensures within { IfSome result (λ i. i < length rows.now) }
{
    rows.iter().position(|account| account.number == n)
}

// Whether there is an account at a place, and it is the first with its number.
pub fn is_first(rows: &[Account], i: usize) -> bool
    ensures { result ≡ is_first (map account_entry rows.now) i }
{
    rows.get(i)
        .is_some_and(|account| numbered(rows, account.number) == Some(i))
}

// The place of the account named `root`.
pub fn root_account(rows: &[Account]) -> Option<usize>
    ensures place { result ≡ position (λ a. bytes_eq a.name (codes "root")) (map account_entry rows.now) }
    ensures within { IfSome result (λ i. i < length rows.now) }
{
    rows.iter().position(|account| account.name.is(b"root"))
}
