ghost use Rattle.std.specs.Prelude.{refl};
ghost use Rattle.rules.proofs.Naming.{passed_on};

use crate::assumed::Assumed;
use crate::barred::Barred;
use bounded::ArrayVec;
use rules::named::Named;

// A layer prints what lies below.
impl<S: Named> Named for Assumed<S> {
    ghost form = { λ s p. S.Named.form s.source p };

    ghost named = { λ s. passed_on refl (S.Named.named s.source) };

    fn print(&self, p: u16) -> ArrayVec<u8, 128> {
        self.source.print(p)
    }
}

impl<S: Named> Named for Barred<S> {
    ghost form = { λ s p. S.Named.form s.source p };

    ghost named = { λ s. passed_on refl (S.Named.named s.source) };

    fn print(&self, p: u16) -> ArrayVec<u8, 128> {
        self.source.print(p)
    }
}
