// The slots of any user, and of root at any host.
ghost use Rattle.std.specs.Prelude.{◌≡◌, map};
ghost use Rattle.allows.specs.Slots.{any_slot, root_slot};
ghost use Rattle.host.specs.Tables.{host_tables};
ghost use Rattle.grants.specs.Tables.{tables_of};

use crate::places::HostAt;
use host::Host;
use lookups::{is_first, root_account};
use region::Right;

impl HostAt<'_> {
    // Rule 24, of any user: the number of account i, if it is live there.
    pub fn any_slot(self, i: u8) -> Option<(u16, u8)>
        ensures { result ≡ any_slot (tables_of self.entry) self.entry.place i }
    {
        if !is_first(self.tables.accounts(), i as usize) {
            return None;
        }
        self.grant(Right::Number(i), 24)
    }
}

// Rule 25, of root at any host: the name `root` at host h.
pub fn root_slot(hosts: &[Host], h: u8) -> Option<(u16, u8)>
    ensures { result ≡ root_slot (map host_tables hosts.now) h }
{
    let host = HostAt::new(hosts, h)?;
    let i = root_account(host.tables.accounts())?;
    host.grant(Right::Name(i as u8), 25)
}
