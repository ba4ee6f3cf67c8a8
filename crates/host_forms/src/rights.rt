// What rights print at a host.
ghost use Rattle.std.specs.Prelude.{◌≡◌};
ghost use Rattle.bounded.specs.ArrayVecs.{items_of};
ghost use Rattle.forms.specs.Printed.{right_form};
ghost use Rattle.host.specs.Tables.{host_tables};

use bounded::ArrayVec;
use forms::{account_form, any_user_form, group_form, number_form, replace_form, write_form};
use host::Host;
use region::Right;

// What a right prints at a host: one of an entry that is not there prints nothing.
pub fn right_printed(t: &Host, right: Right) -> ArrayVec<u8, 128>
    ensures { items_of result ≡ right_form (host_tables t.now) right }
{
    let host = t.name();
    let form = match right {
        Right::AnyUser => Some(any_user_form(host)),
        Right::Name(i) => t.account(i.into()).map(|a| account_form(&a.name, host)),
        Right::Number(i) => t
            .account(i.into())
            .map(|a| number_form(a.number, &a.name, host)),
        Right::Group(j) => t
            .group(j.into())
            .map(|b| group_form(b.number, &b.name, host)),
        Right::Write(r) => t.file(r.into()).map(|x| write_form(&x.path, host)),
        Right::Replace(r) => t.file(r.into()).map(|x| replace_form(&x.path, host)),
    };
    form.unwrap_or_else(|| ArrayVec::new(0))
}
