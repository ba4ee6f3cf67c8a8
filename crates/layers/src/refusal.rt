ghost use Rattle.std.specs.Prelude.{◌≡◌};
ghost use Rattle.layers.specs.declared.refusal.Refusal.TheVariants.{NoRoom};

use bounded::Full;

// Why a layer is not changed.
#[derive(Clone, Copy, Debug, PartialEq, Eq)]
pub enum Refusal {
    // a privilege that is named is not live
    NotLive,
    // what is to be entered stands there already
    AlreadyThere,
    // what is to be taken out does not stand there
    NotThere,
    NoRoom,
}

impl Refusal {
    ghost use Rattle.layers.specs.Answers.{number};

    // The number of the refusal, as it is printed.
    pub fn number(self) -> u8
        ensures { result ≡ number self }
    {
        match self {
            Refusal::NotLive => 12,
            Refusal::AlreadyThere | Refusal::NotThere => 14,
            Refusal::NoRoom => 15,
        }
    }
}

impl From<Full> for Refusal {
    ghost from_gives = { λ _ e. e ≡ NoRoom };

    fn from(_full: Full) -> Refusal {
        Self::NoRoom
    }
}
