// The slots of every privilege, by its kind.
ghost use Rattle.std.specs.Prelude.{◌≡◌, ◌<◌, ◌≤◌, map};
ghost use Rattle.allows.specs.Slots.{right_slot};
ghost use Rattle.allows.specs.Source.{ruled_slot, site_slot};
ghost use Rattle.host.specs.Tables.{host_tables};
ghost use Rattle.grants.specs.Tables.{site_of, tables_of};

use crate::lives::is_live;
use crate::others::root_slot;
use crate::places::HostAt;
use host::Host;
use region::{Privilege, ROOT_ANYWHERE, Right};

// No privilege has more slots.
const WIDTH: u16 = 140;

impl HostAt<'_> {
    // What slot k of a right at the host holds. The rules give each kind of right its slots by number, so a match on the number is their table.
    fn right_slot(self, right: Right, k: u8) -> Option<(u16, u8)>
        ensures { result ≡ right_slot (site_of self.entry) (tables_of self.entry) self.entry.place right k }
    {
        match right {
            Right::AnyUser => self.any_slot(k),
            Right::Name(i) => self.account(i)?.name_slot(k),
            Right::Number(i) => self.account(i)?.number_slot(k),
            Right::Group(j) => self.group_slot(j, k),
            Right::Write(r) => self.write_slot(r, k),
            Right::Replace(r) => self.replace_slot(r, k),
        }
    }
}

// What slot k of the privilege g holds by the rules, whether the granting privilege is live or not.
fn ruled_slot(hosts: &[Host], g: u16, k: u8) -> Option<(u16, u8)>
    ensures { result ≡ ruled_slot (map host_tables hosts.now) g k }
{
    if g == ROOT_ANYWHERE {
        return root_slot(hosts, k);
    }
    let x = Privilege::try_from(g).ok()?;
    HostAt::new(hosts, x.host)?.right_slot(x.right, k)
}

// What slot k of the privilege g holds: nothing from 140 on, nor where one of the two privileges is not live.
pub fn live_slot(hosts: &[Host], g: u16, k: u16) -> Option<(u16, u8)>
    ensures { result ≡ site_slot (map host_tables hosts.now) g k }
{
    if k >= WIDTH {
        return None;
    }
    let Some((p, rule)) = ruled_slot(hosts, g, k as u8) else {
        return None;
    };
    (is_live(hosts, g) && is_live(hosts, p)).then_some((p, rule))
}
