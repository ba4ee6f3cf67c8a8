ghost use Rattle.std.specs.Prelude.{◌≡◌, ◌&&◌, [], ◌∷◌, ◌++◌, is_ok, IfOk, if◌then◌else◌, slice_get};
ghost use Rattle.layers.specs.Layers.{room, is_pair, without, granted, with_assumed};
ghost use Rattle.layers.specs.Layered.{assumed_lawful};
ghost use Rattle.layers.specs.Answers.{assume_answer, withdraw_answer};

use crate::entries::{enter, take_out};
use crate::refusal::Refusal;
use bounded::BoundedVec;
use rules::source::RuleSource;
use std::alloc::{AllocError, Global};

// A source with grants that are assumed, as they were entered: the first of a pair grants the second.
#[derive(Drop)]
pub struct Assumed<S> {
    pub source: S,
    pub(crate) pairs: BoundedVec<(u16, u16), 32>,
}

impl<S: RuleSource> RuleSource for Assumed<S> {
    ghost meaning = { λ s. with_assumed (S.RuleSource.meaning s.source) s.pairs };

    ghost lawful = { λ s. assumed_lawful (S.RuleSource.meaning s.source) s.pairs (S.RuleSource.lawful s.source) };

    fn count(&self) -> u16 {
        self.source.count()
    }

    fn width(&self) -> u16 {
        self.source.width() + self.room()
    }

    fn live(&self, p: u16) -> bool {
        self.source.live(p)
    }

    fn place(&self, p: u16) -> u8 {
        self.source.place(p)
    }

    fn slot(&self, g: u16, k: u16) -> Option<(u16, u8)> {
        let w = self.source.width();
        if k < w {
            return self.source.slot(g, k);
        }
        if k >= w + self.room() {
            return None;
        }
        self.granted((k - w) as usize, g)
    }
}

impl<S: RuleSource> Assumed<S> {
    // What lies below.
    pub fn source(&self) -> &S
        ensures { result.now ≡ self.now.source }
    {
        &self.source
    }

    // With no assumption, and room reserved for all that may come.
    pub fn new(heap: Global, source: S) -> Result<Assumed<S>, AllocError>
    where
        S: Drop,
        ensures { IfOk result (λ s. (s.source ≡ source) × (s.pairs ≡ [])) }
    {
        let pairs = BoundedVec::new(heap)?;
        Ok(Assumed { source, pairs })
    }

    // How many assumptions there is room for.
    fn room(&self) -> u16
        ensures { result ≡ room (S.RuleSource.meaning self.now.source) }
    {
        (1024 - self.source.width()).min(32)
    }

    fn both_live(&self, p: u16, g: u16) -> bool
        ensures { result ≡ ((S.RuleSource.meaning self.now.source).live p && (S.RuleSource.meaning self.now.source).live g) }
    {
        self.source.live(p) && self.source.live(g)
    }

    // From now on p is assumed to grant g.
    pub fn assume(&mut self, p: u16, g: u16) -> Result<(), Refusal>
        ensures answer { result ≡ assume_answer (S.RuleSource.meaning self.old.source) self.old.pairs p g }
        ensures after { self.new.pairs ≡ (if is_ok result then self.old.pairs ++ (p, g) ∷ [] else self.old.pairs) }
        ensures same { self.new.source ≡ self.old.source }
    {
        if !self.both_live(p, g) {
            return Err(Refusal::NotLive);
        }
        let room = self.room() as usize;
        enter(&mut self.pairs, (p, g), room)
    }

    // From now on p is not assumed to grant g; later assumptions move down.
    pub fn withdraw(&mut self, p: u16, g: u16) -> Result<(), Refusal>
        ensures answer { result ≡ withdraw_answer (S.RuleSource.meaning self.old.source) self.old.pairs p g }
        ensures after { self.new.pairs ≡ (if is_ok result then without (is_pair p g) self.old.pairs else self.old.pairs) }
        ensures same { self.new.source ≡ self.old.source }
    {
        if !self.both_live(p, g) {
            return Err(Refusal::NotLive);
        }
        take_out(&mut self.pairs, (p, g))
    }

    // What the assumption of number j puts into a slot of g.
    fn granted(&self, j: usize, g: u16) -> Option<(u16, u8)>
        ensures { result ≡ granted (S.RuleSource.meaning self.now.source).live g (slice_get self.now.pairs j) }
    {
        let (p, to) = *self.pairs.as_slice().get(j)?;
        if to == g && self.both_live(p, g) {
            Some((p, 200))
        } else {
            None
        }
    }
}
