ghost use Rattle.std.specs.Prelude.{◌≡◌, ℕ, List};
ghost use Rattle.bounded.specs.ArrayVecs.{items_of};
ghost use Rattle.rules.specs.Names.{WellNamed};

use crate::source::RuleSource;
use bounded::ArrayVec;

// A source that also prints its privileges.
pub trait Named: RuleSource {
    // The bytes that a privilege prints.
    ghost form: { Self → ℕ → List ℕ };

    // The form of p, which is empty where p is dead. By the law below it has at most 128 bytes, so none is cut off.
    fn print(&self, p: u16) -> ArrayVec<u8, 128>
        ensures { items_of result ≡ form self.now p };

    ghost named: { (s : Self) → WellNamed (Self.RuleSource.meaning s) (form s) };
}
