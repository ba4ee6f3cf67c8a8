// The names of a region's hosts: 8 at most, in room that is taken when the table is made.
ghost use Rattle.std.specs.Prelude.{◌≡◌, ◌<◌, [], map, IfSome, IfOk};
ghost use Rattle.text.specs.Kept.{name_bytes};
ghost use Rattle.tables.specs.Rows.{HostNamesSound};

pub mod read;

use bounded::BoundedVec;
use std::alloc::{AllocError, Global};
use text::Name;

#[derive(Drop)]
pub struct HostNames {
    rows: BoundedVec<Name, 8>,
    ghost sound: { HostNamesSound (map name_bytes rows) },
}

impl HostNames {
    ghost use Rattle.tables.specs.HostsText.{hosts_of, host_place};

    // An empty table with room for 8 hosts.
    pub fn new(heap: Global) -> Result<HostNames, AllocError>
        ensures { IfOk result (λ t. hosts_of t ≡ []) }
    {
        let rows = BoundedVec::new(heap)?;
        Ok(HostNames { rows })
    }

    // The names in the order of their lines.
    pub fn as_slice(&self) -> &[Name]
        ensures { map name_bytes result.now ≡ hosts_of self.now }
    {
        self.rows.as_slice()
    }

    // The place of the host of that name.
    pub fn place_of(&self, name: &[u8]) -> Option<usize>
        ensures place { result ≡ host_place name.now (hosts_of self.now) }
        ensures within { IfSome result (λ i. i < 8) }
    {
        self.as_slice().iter().position(|row| row.is(name))
    }
}
