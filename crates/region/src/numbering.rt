// Privileges by number: host h has the 177 numbers from 177h on, and 1,416 is root at any host.
ghost use Rattle.std.specs.Prelude.{◌≡◌, ◌<◌};
ghost use Rattle.region.specs.Privileges.{right_at, offset};

use crate::privilege::{Privilege, Right};

// The number of root at any host.
pub const ROOT_ANYWHERE: u16 = 1416;

// A number that no privilege at one host has: that of root at any host, or one past it.
#[derive(Clone, Copy, Debug, PartialEq, Eq)]
pub struct NotAtOneHost;

fn right_at(o: u8) -> Right
    requires { o < 177 }
    ensures { result ≡ right_at o }
{
    match o {
        0 => Right::AnyUser,
        1..=16 => Right::Name(o - 1),
        17..=32 => Right::Number(o - 17),
        33..=48 => Right::Group(o - 33),
        49..=112 => Right::Write(o - 49),
        _ => Right::Replace(o - 113),
    }
}

impl TryFrom<u16> for Privilege {
    type Error = NotAtOneHost;

    ghost use Rattle.region.specs.Numbering.{Decodes};

    ghost try_from_gives = { Decodes };

    fn try_from(p: u16) -> Result<Privilege, NotAtOneHost> {
        if p >= ROOT_ANYWHERE {
            return Err(NotAtOneHost);
        }
        Ok(Privilege {
            host: (p / 177) as u8,
            right: right_at((p % 177) as u8),
        })
    }
}

fn offset_of(right: Right) -> u16
    ensures { result ≡ offset right }
{
    match right {
        Right::AnyUser => 0,
        Right::Name(i) => 1 + u16::from(i),
        Right::Number(i) => 17 + u16::from(i),
        Right::Group(j) => 33 + u16::from(j),
        Right::Write(r) => 49 + u16::from(r),
        Right::Replace(r) => 113 + u16::from(r),
    }
}

impl From<Privilege> for u16 {
    ghost use Rattle.region.specs.Numbering.{Encodes};

    ghost from_gives = { Encodes };

    fn from(x: Privilege) -> u16 {
        u16::from(x.host) * 177 + offset_of(x.right)
    }
}
