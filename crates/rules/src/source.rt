ghost use Rattle.std.specs.Prelude.{◌≡◌};
ghost use Rattle.rules.specs.Rules.{Rules, Lawful};

// Privileges by number, and by which others each is granted. A source answers at any number and never refuses.
pub trait RuleSource {
    // What the source means, and that it keeps the laws of a source.
    ghost meaning: { Self → Rules };

    ghost lawful: { (s : Self) → Lawful (meaning s) };

    // Privileges are numbered from 0 up to this.
    fn count(&self) -> u16
        ensures { result ≡ (meaning self.now).count };

    // Slots of a privilege are numbered from 0 up to this.
    fn width(&self) -> u16
        ensures { result ≡ (meaning self.now).width };

    // Whether there is such a privilege.
    fn live(&self, p: u16) -> bool
        ensures { result ≡ (meaning self.now).live p };

    // Where the privilege is: a step between two places is a crossing.
    fn place(&self, p: u16) -> u8
        ensures { result ≡ (meaning self.now).place p };

    // The privilege that grants g in its slot k, and the rule by which it does.
    fn slot(&self, g: u16, k: u16) -> Option<(u16, u8)>
        ensures { result ≡ (meaning self.now).slot g k };
}
