// What a privilege prints.
ghost use Rattle.std.specs.Prelude.{◌≡◌, map};
ghost use Rattle.std.specs.List.{slice_get};
ghost use Rattle.bounded.specs.ArrayVecs.{items_of};
ghost use Rattle.forms.specs.Printed.{printed, right_form, form_of};
ghost use Rattle.host.specs.Tables.{host_tables};

use crate::rights::right_printed;
use bounded::ArrayVec;
use forms::root_anywhere_form;
use grants::is_live;
use host::Host;
use region::{Privilege, ROOT_ANYWHERE};

// The form of a privilege at a host: none where the host is not there.
fn form_at(hosts: &[Host], x: Privilege) -> ArrayVec<u8, 128>
    ensures { items_of result ≡ printed (slice_get (map host_tables hosts.now) x.host) (λ t. right_form t x.right) }
{
    match hosts.get(x.host as usize) {
        Some(host) => right_printed(host, x.right),
        None => ArrayVec::new(0),
    }
}

// The form of a privilege: one that is not live has none.
pub fn print_form(hosts: &[Host], p: u16) -> ArrayVec<u8, 128>
    ensures { items_of result ≡ form_of (map host_tables hosts.now) p }
{
    if !is_live(hosts, p) {
        return ArrayVec::new(0);
    }
    if p == ROOT_ANYWHERE {
        return root_anywhere_form();
    }
    match Privilege::try_from(p) {
        Ok(x) => form_at(hosts, x),
        Err(_) => ArrayVec::new(0),
    }
}
