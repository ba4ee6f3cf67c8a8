ghost use Rattle.std.specs.Prelude.{◌≡◌, ◌≤◌, All, length, vec_len, vec_capacity, IfOk};
ghost use Rattle.trial.specs.Ledger.{empty};
ghost use Rattle.trial.specs.Tables.{Stands};
ghost use Rattle.trial.specs.Trials.{lists_of, source_of};
ghost use Rattle.trial.specs.Preparing.{Wide};

use crate::calls::{Call, PlanMemory, Reply};
use crate::runs::Desk;
use crate::trials::Trial;
use rules::measure::Measure;
use rules::source::RuleSource;
use std::alloc::{AllocError, Global};

// A bare trial with all the memory that a run of so many calls needs: room for a plan and a reply for each.
#[derive(Drop)]
pub struct Prepared<S: RuleSource, W> {
    desk: Desk<S, W>,
    plans: Vec<PlanMemory>,
    replies: Vec<Reply<W>>,
    ghost bare: { Stands (S.RuleSource.meaning (source_of desk.trial)) (lists_of desk.trial) empty },
    ghost wide: { All (Wide (S.RuleSource.meaning (source_of desk.trial)).count) plans.items },
    ghost room: { vec_len plans ≤ vec_capacity replies },
    ghost none: { vec_len replies ≡ 0 },
}

// What a run leaves: the trial after the last call, and the replies.
#[derive(Drop)]
pub struct Finished<S, W> {
    pub trial: Trial<S>,
    pub replies: Vec<Reply<W>>,
}

// Memory for so many plans of n privileges.
fn plan_memories(heap: Global, n: usize, many: usize) -> Result<Vec<PlanMemory>, AllocError>
    ensures { IfOk result (λ v. All (Wide n) v.items × (vec_len v ≡ many)) }
{
    let mut all = Vec::new(heap);
    all.try_resize_with(many, || PlanMemory::new(heap, n))?;
    Ok(all)
}

impl<S: RuleSource, W: Measure> Prepared<S, W> {
    ghost use Rattle.trial.specs.Runs.{Ran, Ready, source_under};

    // A bare trial over the source, and memory for so many calls: all that a run takes from the heap.
    pub fn new(heap: Global, source: S, many: usize) -> Result<Prepared<S, W>, AllocError>
    where
        S: Drop,
        ensures { IfOk result (λ d. (source_under d ≡ source) × Ready many d) }
    {
        let desk = Desk::new(heap, source)?;
        let n = desk.trial.count() as usize;
        let plans = plan_memories(heap, n, many)?;
        let replies = Vec::with_capacity(heap, many)?;
        Ok(Prepared {
            desk,
            plans,
            replies,
        })
    }

    // Runs the calls, one after another, and gives what each is replied. It takes nothing from the heap, so it cannot fail.
    pub fn run(self, calls: &[Call]) -> Finished<S, W>
        requires { Ready (length calls.now) self }
        ensures ran { Ran W.zero W.added W.at_most (S.meaning (source_under self)) empty calls.now result.replies.items }
        ensures same { source_of result.trial ≡ source_under self }
    {
        let Prepared {
            mut desk,
            plans,
            mut replies,
        } = self;
        for (call, memory) in calls.iter().zip(plans) {
            replies.push_reserved(desk.reply(call, memory));
        }
        Finished {
            trial: desk.trial,
            replies,
        }
    }
}
