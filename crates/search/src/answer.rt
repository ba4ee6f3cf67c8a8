ghost use Rattle.std.specs.Prelude.{◌≡◌};

// Why a question is refused. Each has the number that is printed for it.
#[derive(Clone, Copy, Debug, PartialEq, Eq)]
pub enum Refusal {
    // a list that is lent has fewer entries than there are privileges
    ShortMemory = 1,
    // the target or a held privilege is not live
    NotLive = 12,
    NoChain = 13,
    // a byte of the held set is neither 0 nor 1
    BadHeldByte = 16,
}

impl Refusal {
    ghost use Rattle.search.specs.Refusals.{number};

    // The number that is printed for it.
    pub fn number(self) -> u8
        ensures { result ≡ number self }
    {
        self as u8
    }
}

// What is answered of a plan: its privileges less one, and its weight.
#[derive(Clone, Copy)]
pub struct Found<W> {
    pub steps: u16,
    pub weight: W,
}
