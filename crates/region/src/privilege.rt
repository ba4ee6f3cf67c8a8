// A privilege at one host. A number in a right is a place in the host's table of accounts, groups or file rows.

#[derive(Clone, Copy, Debug, PartialEq, Eq)]
pub enum Right {
    AnyUser,
    Name(u8),
    Number(u8),
    Group(u8),
    Write(u8),
    Replace(u8),
}

#[derive(Clone, Copy, Debug, PartialEq, Eq)]
pub struct Privilege {
    pub host: u8,
    pub right: Right,
}
