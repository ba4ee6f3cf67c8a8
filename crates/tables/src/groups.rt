// The groups of a host: 16 at most, in room that is taken when the table is made.
ghost use Rattle.std.specs.Prelude.{◌≡◌, [], map, IfOk};
ghost use Rattle.region.specs.Sound.{GroupsSound};
ghost use Rattle.tables.specs.Rows.{group_entry};

mod members;
pub mod read;

use bounded::BoundedVec;
use std::alloc::{AllocError, Global};
use text::Name;

// A line of a group text: listed has for each account, by its place, whether the line names it as a member.
#[derive(Clone, Copy)]
pub struct Group {
    pub name: Name,
    pub number: u32,
    pub listed: [bool; 16],
}

#[derive(Drop)]
pub struct Groups {
    rows: BoundedVec<Group, 16>,
    ghost sound: { GroupsSound (map group_entry rows) },
}

impl Groups {
    ghost use Rattle.tables.specs.GroupText.{groups_of};

    // An empty table with room for 16 groups.
    pub fn new(heap: Global) -> Result<Groups, AllocError>
        ensures { IfOk result (λ t. groups_of t ≡ []) }
    {
        let rows = BoundedVec::new(heap)?;
        Ok(Groups { rows })
    }

    // The groups in the order of their lines.
    pub fn as_slice(&self) -> &[Group]
        ensures { map group_entry result.now ≡ groups_of self.now }
    {
        self.rows.as_slice()
    }
}
