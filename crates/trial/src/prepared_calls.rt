ghost use Rattle.std.specs.Prelude.{◌≡◌, length, IfOk};
ghost use Rattle.trial.specs.Ledger.{empty};
ghost use Rattle.trial.specs.Trials.{source_of};
ghost use Rattle.trial.specs.Runs.{Ran, Ready};

use crate::calls::Call;
use crate::prepared::{Finished, Prepared};
use rules::measure::Measure;
use rules::source::RuleSource;
use std::alloc::{AllocError, Global};

// A list of calls, prepared with all that a run of them takes, so that the run asks nothing of its callers.
#[derive(Drop)]
pub struct PreparedCalls<'a, S: RuleSource, W> {
    calls: &'a [Call<'a>],
    prepared: Prepared<S, W>,
    ghost enough: { Ready (length calls.now) prepared },
}

impl<'a, S: RuleSource, W: Measure> PreparedCalls<'a, S, W> {
    ghost use Rattle.trial.specs.PreparedCalls.{source_below, calls_of};

    // A bare trial over the source, and all that a run of the calls takes from the heap.
    pub fn new(
        heap: Global,
        source: S,
        calls: &'a [Call<'a>],
    ) -> Result<PreparedCalls<'a, S, W>, AllocError>
    where
        S: Drop,
        ensures { IfOk result (λ d. (source_below d ≡ source) × (calls_of d ≡ calls.now)) }
    {
        let prepared = Prepared::new(heap, source, calls.len())?;
        Ok(PreparedCalls { calls, prepared })
    }

    // Runs the calls, one after another, and gives what each is replied. It takes nothing from the heap, so it cannot fail.
    pub fn run(self) -> Finished<S, W>
        ensures ran { Ran W.zero W.added W.at_most (S.meaning (source_below self.entry)) empty (calls_of self.entry) result.replies.items }
        ensures same { source_of result.trial ≡ source_below self.entry }
    {
        let PreparedCalls { calls, prepared } = self;
        prepared.run(calls)
    }
}

#[cfg(test)]
mod tests {
    use super::PreparedCalls;
    use crate::calls::{Call, Change, Reply};
    use crate::prepared::Prepared;
    use rules::source::RuleSource;
    use rules::weights::Steps;
    use std::test::Fail;

    // Two privileges, neither of which is granted.
    #[derive(Drop)]
    struct Two;

    impl RuleSource for Two {
        ghost use Rattle.std.specs.Prelude.{nat_lt, None};
        ghost use Rattle.std.proofs.Common.{refl, lit≤, zero-le};
        ghost use Rattle.std.proofs.lemmas.Bool.{ltb-true};
        ghost use Rattle.std.proofs.lemmas.Option.{none-some};

        ghost meaning = { λ _. record { count = 2; width = 0; live = λ p. nat_lt p 2; place = λ _. 0; slot = λ _ _. None } };

        ghost lawful = { λ _. record {
          count_at_most_8192 = lit≤ tt;
          width_at_most_1024 = lit≤ tt;
          place_at_most_255 = λ _. zero-le;
          live_below_count = λ p l. ltb-true p 2 l;
          place_0_from_count_on = λ _ _. refl;
          dead_holds_nothing = λ _ _ _. refl;
          nothing_from_width_on = λ _ _ _. refl;
          slot_leads_to_live = λ _ _ p r e. absurd (none-some (p, r) e);
        } };

        fn count(&self) -> u16 {
            2
        }

        fn width(&self) -> u16 {
            0
        }

        fn live(&self, p: u16) -> bool {
            p < 2
        }

        fn place(&self, _p: u16) -> u8 {
            0
        }

        fn slot(&self, _g: u16, _k: u16) -> Option<(u16, u8)> {
            None
        }
    }

    #[test]
    fn an_assumed_grant_leads_on(rt: HostRuntime) -> Result<(), Fail> {
        let held = [1u8, 0];
        let calls = [
            Call::Ask(held.as_slice(), 1),
            Call::Change(Change::Assume(0, 1)),
            Call::Ask(held.as_slice(), 1),
        ];
        let prepared: PreparedCalls<Two, Steps> = PreparedCalls::new(
            rt.alloc(),
            Two,
            calls.as_slice(),
        )?;
        let done = prepared.run();
        assert_eq!(rt; done.replies.len(), 3);
        assert!(rt; matches!(done.replies.get(0), Some(Reply::Asked(Err(_)))));
        assert!(rt; matches!(done.replies.get(1), Some(Reply::Changed(Ok(())))));
        let Some(Reply::Asked(Ok(plan))) = done.replies.get(2) else {
            panic!(rt; "no plan");
        };
        assert_eq!(rt; plan.privileges.as_slice(), [0u16, 1].as_slice());
        assert_eq!(rt; plan.rules.as_slice(), [0u8, 200].as_slice());
        Ok(())
    }

    #[test]
    fn memory_may_come_before_the_calls(rt: HostRuntime) -> Result<(), Fail> {
        let prepared: Prepared<Two, Steps> = Prepared::new(rt.alloc(), Two, 1)?;
        let held = [0u8, 1];
        let calls = [Call::Ask(held.as_slice(), 1)];
        let done = prepared.run(calls.as_slice());
        assert_eq!(rt; done.replies.len(), 1);
        assert!(rt; matches!(done.replies.get(0), Some(Reply::Asked(Ok(_)))));
        Ok(())
    }
}
