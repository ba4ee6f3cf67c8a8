ghost use Rattle.std.specs.Prelude.{◌≡◌, IfOk, refl};
ghost use Rattle.rules.proofs.Naming.{passed_on};
ghost use Rattle.layers.specs.Layered.{assumed_lawful, barred_lawful};
ghost use Rattle.search.specs.Questions.{Asked};
ghost use Rattle.trial.specs.Ledger.{Ledger, LedgerGrants, LedgerRule, empty};
ghost use Rattle.trial.specs.Tables.{Stands, Carries, with_tables, list_verdict, list_next};
ghost use Rattle.trial.specs.Trials.{lists_of, source_of};
ghost use Rattle.trial.specs.declared.calls.Change.TheVariants.{Assume, Withdraw, Bar, Lift};

use crate::calls::Change;
use bounded::ArrayVec;
use layers::assumed::Assumed;
use layers::barred::Barred;
use layers::refusal::Refusal;
use rules::measure::Measure;
use rules::named::Named;
use rules::source::RuleSource;
use rules::weights::Label;
use search::answer::{Found, Refusal as Unanswered};
use std::alloc::{AllocError, Global};

// Bars over assumptions over any source.
#[derive(Drop)]
pub struct Trial<S> {
    tables: Barred<Assumed<S>>,
}

impl<S: RuleSource> Trial<S> {
    // With nothing assumed and nothing barred, and room reserved for all that may come.
    pub fn bare(heap: Global, source: S) -> Result<Trial<S>, AllocError>
    where
        S: Drop,
        ensures { IfOk result (λ t. (source_of t ≡ source) × Stands (S.meaning source) (lists_of t) empty) }
    {
        let assumed = Assumed::new(heap, source)?;
        let tables = Barred::new(heap, assumed)?;
        Ok(Trial { tables })
    }

    // From now on p is assumed to grant g.
    pub fn assume(&mut self, p: u16, g: u16) -> Result<(), Refusal>
        ensures agrees { Carries (S.meaning (source_of self.old)) (lists_of self.old) (lists_of self.new) (Assume p g) result }
        ensures lists { lists_of self.new ≡ list_next (S.meaning (source_of self.old)) (lists_of self.old) (Assume p g) }
        ensures same { source_of self.new ≡ source_of self.old }
    {
        self.change(Change::Assume(p, g))
    }

    // From now on p is not assumed to grant g.
    pub fn withdraw(&mut self, p: u16, g: u16) -> Result<(), Refusal>
        ensures agrees { Carries (S.meaning (source_of self.old)) (lists_of self.old) (lists_of self.new) (Withdraw p g) result }
        ensures lists { lists_of self.new ≡ list_next (S.meaning (source_of self.old)) (lists_of self.old) (Withdraw p g) }
        ensures same { source_of self.new ≡ source_of self.old }
    {
        self.change(Change::Withdraw(p, g))
    }

    // From now on p is barred.
    pub fn bar(&mut self, p: u16) -> Result<(), Refusal>
        ensures agrees { Carries (S.meaning (source_of self.old)) (lists_of self.old) (lists_of self.new) (Bar p) result }
        ensures lists { lists_of self.new ≡ list_next (S.meaning (source_of self.old)) (lists_of self.old) (Bar p) }
        ensures same { source_of self.new ≡ source_of self.old }
    {
        self.change(Change::Bar(p))
    }

    // From now on p is not barred.
    pub fn lift(&mut self, p: u16) -> Result<(), Refusal>
        ensures agrees { Carries (S.meaning (source_of self.old)) (lists_of self.old) (lists_of self.new) (Lift p) result }
        ensures lists { lists_of self.new ≡ list_next (S.meaning (source_of self.old)) (lists_of self.old) (Lift p) }
        ensures same { source_of self.new ≡ source_of self.old }
    {
        self.change(Change::Lift(p))
    }

    // Any of the four.
    pub fn change(&mut self, change: Change) -> Result<(), Refusal>
        ensures agrees { Carries (S.meaning (source_of self.old)) (lists_of self.old) (lists_of self.new) change result }
        ensures lists { lists_of self.new ≡ list_next (S.meaning (source_of self.old)) (lists_of self.old) change }
        ensures same { source_of self.new ≡ source_of self.old }
    {
        match change {
            Change::Assume(p, g) => self.tables.source.assume(p, g),
            Change::Withdraw(p, g) => self.tables.source.withdraw(p, g),
            Change::Bar(p) => self.tables.bar(p),
            Change::Lift(p) => self.tables.lift(p),
        }
    }

    // The question, over what the trial allows.
    pub fn ask<W: Measure>(
        &self,
        held: &[u8],
        target: u16,
        marks: &mut [u8],
        labels: &mut [Label<W>],
        plan: &mut [u16],
        rules: &mut [u8],
    ) -> Result<Found<W>, Unanswered>
        ensures { (l : Ledger) → Stands (S.meaning (source_of self.now)) (lists_of self.now) l → Asked W.zero W.added W.at_most (S.meaning (source_of self.now)) (LedgerGrants (S.meaning (source_of self.now)) l) (LedgerRule (S.meaning (source_of self.now)) l) held.now target marks.old marks.new labels.old labels.new plan.old plan.new rules.old rules.new result }
    {
        search::question::ask(&self.tables, held, target, marks, labels, plan, rules)
    }
}

// A trial is a source itself: the source under its two lists. Each answer is handed on by hand: an alias of the two layers would let their lists be changed past the trial's calls.
impl<S: RuleSource> RuleSource for Trial<S> {
    ghost meaning = { λ t. with_tables (S.RuleSource.meaning (source_of t)) (lists_of t) };

    ghost lawful = { λ t. barred_lawful _ (lists_of t).barred (assumed_lawful (S.RuleSource.meaning (source_of t)) (lists_of t).assumed (S.RuleSource.lawful (source_of t))) };

    fn count(&self) -> u16 {
        self.tables.count()
    }

    fn width(&self) -> u16 {
        self.tables.width()
    }

    fn live(&self, p: u16) -> bool {
        self.tables.live(p)
    }

    fn place(&self, p: u16) -> u8 {
        self.tables.place(p)
    }

    fn slot(&self, g: u16, k: u16) -> Option<(u16, u8)> {
        self.tables.slot(g, k)
    }
}

// It prints what lies below.
impl<S: Named> Named for Trial<S> {
    ghost form = { λ t p. S.Named.form (source_of t) p };

    ghost named = { λ t. passed_on refl (S.Named.named (source_of t)) };

    fn print(&self, p: u16) -> ArrayVec<u8, 128> {
        self.tables.print(p)
    }
}
