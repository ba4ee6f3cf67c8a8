// Groups by number, and their members.
ghost use Rattle.std.specs.Prelude.{◌≡◌, ℕ, ◌+◌, ◌<◌, map, length, nat_eq, IfSome, position};
ghost use Rattle.tables.specs.Rows.{account_entry, group_entry};
ghost use Rattle.allows.specs.Slots.{belongs};

use tables::{Account, Group};

// The place of the group with a number.
pub fn group_numbered(rows: &[Group], n: u32) -> Option<usize>
    ensures place { result ≡ position (λ b. nat_eq b.number n) (map group_entry rows.now) }
    ensures within { IfSome result (λ j. j < length rows.now) }
{
    rows.iter().position(|group| group.number == n)
}

// Whether the account at place i is a member of the group: the group's line lists it, or passwd gives it the group's number.
pub fn belongs(group: &Group, i: usize, account: &Account) -> bool
    ensures { result ≡ belongs (group_entry group.now) i (account_entry account.now) }
{
    group.listed.get(i) == Some(&true) || account.group == group.number
}
