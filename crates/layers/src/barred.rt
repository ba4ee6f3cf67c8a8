ghost use Rattle.std.specs.Prelude.{◌≡◌, [], ◌∷◌, ◌++◌, is_ok, IfOk, if◌then◌else◌};
ghost use Rattle.layers.specs.Layers.{is_bar, without, member, with_barred};
ghost use Rattle.layers.specs.Layered.{barred_lawful};
ghost use Rattle.layers.specs.Answers.{bar_answer, lift_answer};

use crate::entries::{enter, take_out};
use crate::refusal::Refusal;
use bounded::BoundedVec;
use rules::source::RuleSource;
use std::alloc::{AllocError, Global};

// A source with privileges that are barred: no step leads to or from one.
#[derive(Drop)]
pub struct Barred<S> {
    pub source: S,
    pub(crate) barred: BoundedVec<u16, 32>,
}

impl<S: RuleSource> Barred<S> {
    // What lies below.
    pub fn source(&self) -> &S
        ensures { result.now ≡ self.now.source }
    {
        &self.source
    }

    // With no bar, and room reserved for all that may come.
    pub fn new(heap: Global, source: S) -> Result<Barred<S>, AllocError>
    where
        S: Drop,
        ensures { IfOk result (λ s. (s.source ≡ source) × (s.barred ≡ [])) }
    {
        let barred = BoundedVec::new(heap)?;
        Ok(Barred { source, barred })
    }

    // From now on p is barred.
    pub fn bar(&mut self, p: u16) -> Result<(), Refusal>
        ensures answer { result ≡ bar_answer (S.RuleSource.meaning self.old.source) self.old.barred p }
        ensures after { self.new.barred ≡ (if is_ok result then self.old.barred ++ p ∷ [] else self.old.barred) }
        ensures same { self.new.source ≡ self.old.source }
    {
        if !self.source.live(p) {
            return Err(Refusal::NotLive);
        }
        enter(&mut self.barred, p, 32)
    }

    // From now on p is not barred.
    pub fn lift(&mut self, p: u16) -> Result<(), Refusal>
        ensures answer { result ≡ lift_answer (S.RuleSource.meaning self.old.source) self.old.barred p }
        ensures after { self.new.barred ≡ (if is_ok result then without (is_bar p) self.old.barred else self.old.barred) }
        ensures same { self.new.source ≡ self.old.source }
    {
        if !self.source.live(p) {
            return Err(Refusal::NotLive);
        }
        take_out(&mut self.barred, p)
    }

    fn bars(&self, p: u16) -> bool
        ensures { result ≡ member p self.now.barred }
    {
        self.barred.as_slice().contains(&p)
    }
}

impl<S: RuleSource> RuleSource for Barred<S> {
    ghost meaning = { λ s. with_barred (S.RuleSource.meaning s.source) s.barred };

    ghost lawful = { λ s. barred_lawful (S.RuleSource.meaning s.source) s.barred (S.RuleSource.lawful s.source) };

    fn count(&self) -> u16 {
        self.source.count()
    }

    fn width(&self) -> u16 {
        self.source.width()
    }

    fn live(&self, p: u16) -> bool {
        self.source.live(p)
    }

    fn place(&self, p: u16) -> u8 {
        self.source.place(p)
    }

    fn slot(&self, g: u16, k: u16) -> Option<(u16, u8)> {
        // most slots are empty: the bars are looked through only for those that are not
        let Some((p, rule)) = self.source.slot(g, k) else {
            return None;
        };
        if self.bars(g) || self.bars(p) {
            return None;
        }
        Some((p, rule))
    }
}
