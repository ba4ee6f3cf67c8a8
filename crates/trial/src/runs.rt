// What the calls of a run share: the trial, and memory for its questions.
ghost use Rattle.std.specs.Prelude.{◌≡◌, ◌≤◌, IfOk, vec_len};
ghost use Rattle.trial.specs.Trials.{source_of};

use crate::calls::{Call, Plan, PlanMemory, Reply};
use crate::trials::Trial;
use rules::measure::Measure;
use rules::source::RuleSource;
use rules::weights::Label;
use search::answer::Refusal as Unanswered;
use std::alloc::{AllocError, Global};

// A trial, and the memory that its questions share.
#[derive(Drop)]
pub(crate) struct Desk<S: RuleSource, W> {
    pub(crate) trial: Trial<S>,
    marks: Vec<u8>,
    labels: Vec<Label<W>>,
    ghost marked: { (S.RuleSource.meaning (source_of trial)).count ≤ vec_len marks },
    ghost labelled: { (S.RuleSource.meaning (source_of trial)).count ≤ vec_len labels },
}

impl<S: RuleSource, W: Measure> Desk<S, W> {
    ghost use Rattle.trial.specs.Ledger.{Ledger, empty};
    ghost use Rattle.trial.specs.Tables.{Stands};
    ghost use Rattle.trial.specs.Trials.{lists_of};
    ghost use Rattle.trial.specs.Preparing.{Wide};
    ghost use Rattle.trial.specs.Runs.{Says, Replied, onward};

    // A bare trial over the source, and memory for its questions.
    pub(crate) fn new(heap: Global, source: S) -> Result<Desk<S, W>, AllocError>
    where
        S: Drop,
        ensures { IfOk result (λ d. (source_of d.trial ≡ source) × Stands (S.meaning (source_of d.trial)) (lists_of d.trial) empty) }
    {
        let n = source.count() as usize;
        let marks = vec![in heap; 0u8; n]?;
        let labels = blank_labels(heap, n)?;
        let trial = Trial::bare(heap, source)?;
        Ok(Desk {
            trial,
            marks,
            labels,
        })
    }

    // One question, and its plan in memory that is given away.
    fn question(
        &mut self,
        held: &[u8],
        target: u16,
        memory: PlanMemory,
    ) -> Result<Plan<W>, Unanswered>
        requires { Wide (S.meaning (source_of self.old.trial)).count memory }
        ensures says { (l : Ledger) → Stands (S.meaning (source_of self.old.trial)) (lists_of self.old.trial) l → Says W.zero W.added W.at_most (S.meaning (source_of self.old.trial)) l held.now target result }
        ensures same { self.new.trial ≡ self.old.trial }
    {
        let PlanMemory {
            mut plan,
            mut rules,
        } = memory;
        let found = self.trial.ask(
            held,
            target,
            &mut self.marks,
            &mut self.labels,
            &mut plan,
            &mut rules,
        )?;
        let n = found.steps as usize + 1;
        plan.truncate(n);
        rules.truncate(n);
        Ok(Plan {
            found,
            privileges: plan,
            rules,
        })
    }

    // The reply to one call.
    pub(crate) fn reply(&mut self, call: &Call, memory: PlanMemory) -> Reply<W>
        requires { Wide (S.meaning (source_of self.old.trial)).count memory }
        ensures replied { (l : Ledger) → Stands (S.meaning (source_of self.old.trial)) (lists_of self.old.trial) l → Replied W.zero W.added W.at_most (S.meaning (source_of self.old.trial)) l call.now result × Stands (S.meaning (source_of self.old.trial)) (lists_of self.new.trial) (onward (S.meaning (source_of self.old.trial)) l call.now) }
        ensures same { source_of self.new.trial ≡ source_of self.old.trial }
    {
        match call {
            Call::Change(c) => Reply::Changed(self.trial.change(*c)),
            Call::Ask(held, target) => Reply::Asked(self.question(*held, *target, memory)),
        }
    }
}

// So many labels, whatever they hold.
pub fn blank_labels<W: Measure>(heap: Global, n: usize) -> Result<Vec<Label<W>>, AllocError>
    ensures { IfOk result (λ v. vec_len v ≡ n) }
{
    let blank = Label {
        weight: W::zero(),
        next: 0,
        rule: 0,
    };
    vec![in heap; blank; n]
}
