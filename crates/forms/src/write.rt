// The bytes of the seven forms.
ghost use Rattle.std.specs.Prelude.{◌≡◌, ◌+◌, ◌≤◌, ◌++◌, length};
ghost use Rattle.bounded.specs.ArrayVecs.{items_of};
ghost use Rattle.text.specs.Kept.{name_bytes, path_bytes};
ghost use Rattle.forms.specs.Forms.{text_at_host, numbered_at, name_form, number_form, group_form, write_form, replace_form, any_form, root_form};

use bounded::ArrayVec;
use print::put_number;
use text::{Name, Path};

// A form that names something at a host. The bound keeps room for the longest host, so that no byte is cut off.
fn placed(front: &[u8], what: &[u8], host: &Name) -> ArrayVec<u8, 128>
    requires { length front.now + length what.now ≤ 93 }
    ensures { items_of result ≡ front.now ++ text_at_host what.now (name_bytes host.now) }
{
    let mut form = ArrayVec::new(0);
    form.add(front);
    form.add(what);
    form.add(b" at ");
    form.add(host.as_slice());
    form
}

// A form that names a number, with a name beside it, at a host. The bound keeps room for the longest number, name and host.
fn counted(front: &[u8], number: u32, name: &Name, host: &Name) -> ArrayVec<u8, 128>
    requires { length front.now ≤ 49 }
    ensures { items_of result ≡ front.now ++ numbered_at number (name_bytes name.now) (name_bytes host.now) }
{
    let mut form = ArrayVec::new(0);
    form.add(front);
    put_number(&mut form, number);
    form.add(b" (");
    form.add(name.as_slice());
    form.add(b") at ");
    form.add(host.as_slice());
    form
}

// To be an account by name.
pub fn account_form(name: &Name, host: &Name) -> ArrayVec<u8, 128>
    ensures { items_of result ≡ name_form (name_bytes name.now) (name_bytes host.now) }
{
    placed(b"Become user named ", name.as_slice(), host)
}

// To have a number, whose first account is named beside it.
pub fn number_form(number: u32, name: &Name, host: &Name) -> ArrayVec<u8, 128>
    ensures { items_of result ≡ number_form number (name_bytes name.now) (name_bytes host.now) }
{
    counted(b"Become user number ", number, name, host)
}

// To be a member of a group.
pub fn group_form(number: u32, name: &Name, host: &Name) -> ArrayVec<u8, 128>
    ensures { items_of result ≡ group_form number (name_bytes name.now) (name_bytes host.now) }
{
    counted(b"Become member of group ", number, name, host)
}

// To write a file.
pub fn write_form(path: &Path, host: &Name) -> ArrayVec<u8, 128>
    ensures { items_of result ≡ write_form (path_bytes path.now) (name_bytes host.now) }
{
    placed(b"Write file ", path.as_slice(), host)
}

// To replace a file.
pub fn replace_form(path: &Path, host: &Name) -> ArrayVec<u8, 128>
    ensures { items_of result ≡ replace_form (path_bytes path.now) (name_bytes host.now) }
{
    placed(b"Replace file ", path.as_slice(), host)
}

// To be any user of a host.
pub fn any_user_form(host: &Name) -> ArrayVec<u8, 128>
    ensures { items_of result ≡ any_form (name_bytes host.now) }
{
    placed(b"Become user named ", b"any", host)
}

// To be root at any host.
pub fn root_anywhere_form() -> ArrayVec<u8, 128>
    ensures { items_of result ≡ root_form }
{
    let mut form = ArrayVec::new(0);
    form.add(b"Become user named root at any");
    form
}
