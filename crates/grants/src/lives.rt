// Which privileges are live.
ghost use Rattle.std.specs.Prelude.{◌≡◌, ◌<◌, map, length};
ghost use Rattle.allows.specs.Live.{host_has, has, site_live};
ghost use Rattle.host.specs.Tables.{host_tables};

use host::Host;
use lookups::is_first;
use region::{Privilege, ROOT_ANYWHERE, Right};

// Whether a host has what a right speaks of.
fn has(host: &Host, right: Right) -> bool
    ensures { result ≡ host_has (host_tables host.now) right }
{
    match right {
        Right::AnyUser => true,
        Right::Name(i) => (i as usize) < host.account_count(),
        Right::Number(i) => is_first(host.accounts(), i as usize),
        Right::Group(j) => (j as usize) < host.group_count(),
        Right::Write(r) | Right::Replace(r) => (r as usize) < host.file_count(),
    }
}

// Whether the host of a privilege is there and has what its right speaks of.
fn is_there(hosts: &[Host], x: Privilege) -> bool
    ensures { result ≡ has (map host_tables hosts.now) (Some x) }
{
    hosts
        .get(x.host as usize)
        .is_some_and(|host| has(host, x.right))
}

// Whether a privilege is live: root at any host always is.
pub fn is_live(hosts: &[Host], p: u16) -> bool
    ensures { result ≡ site_live (map host_tables hosts.now) p }
{
    p == ROOT_ANYWHERE || Privilege::try_from(p).is_ok_and(|x| is_there(hosts, x))
}
