ghost use Rattle.std.specs.Prelude.{◌≡◌};
ghost use Rattle.matrix.specs.declared.refusal.Unmade.TheVariants.{NoMemory};

use std::alloc::AllocError;

// Why no matrix is made.
#[derive(Clone, Copy, Debug, PartialEq, Eq)]
pub enum Unmade {
    // more than 256 operations
    TooMany,
    NoMemory,
}

impl From<AllocError> for Unmade {
    ghost from_gives = { λ _ e. e ≡ NoMemory };

    fn from(_: AllocError) -> Unmade {
        Unmade::NoMemory
    }
}

// Why a cell is neither read nor changed.
#[derive(Clone, Copy, Debug, PartialEq, Eq)]
pub enum Refusal {
    // one of the pair is no operation of the matrix
    NotLive,
}
