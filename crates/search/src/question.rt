ghost use Rattle.std.specs.Prelude.{◌≡◌, ℕ, ◌≤◌, length, replicate, slice_index_or};
ghost use Rattle.rules.specs.Chains.{Grants, GrantsFirst};
ghost use Rattle.search.specs.Outcomes.{Searched};
ghost use Rattle.search.specs.Questions.{Asked};

use crate::answer::{Found, Refusal};
use crate::board::Board;
use crate::guard::Marks;
use crate::judge::judge;
use crate::write::write_plan;
use rules::measure::Measure;
use rules::source::RuleSource;
use rules::weights::Label;

// The held privilege that a least chain starts at, over memory that suffices: there is a held byte and a mark for each privilege, and no more.
fn chain_start<S: RuleSource, W: Measure>(
    source: &S,
    held: &[u8],
    target: u16,
    marks: &mut [u8],
    labels: &mut [Label<W>],
) -> Result<u16, Refusal>
    requires held { length held.now ≡ (S.meaning source.now).count }
    requires marks { length marks.old ≡ (S.meaning source.now).count }
    requires labels { (S.meaning source.now).count ≤ length labels.old }
    ensures cases { Searched W.zero W.added W.at_most (S.meaning source.now) held.now target labels.new result }
    ensures marks { marks.new ≡ replicate (length marks.old) 0 }
    ensures past { (k : ℕ) (d : Label W) → (S.meaning source.now).count ≤ k → slice_index_or labels.new k d ≡ slice_index_or labels.old k d }
{
    let guard = Marks { cells: &mut *marks };
    judge(source, held, target)?;
    let mut board = Board {
        marks: &mut *guard.cells,
        labels,
    };
    board.run(source, held, target).ok_or(Refusal::NoChain)
}

// Asks for the least chain from a privilege of the held set to the target. The first n held bytes, n being the source's count, are the held set;
// marks, labels, plan and rules are memory of n entries or more. The plan is written held end first, with the rule of each step beside it and 0 beside its first privilege.
// The memory is lent as a slice for each list: that is the interface, and so they stay parameters of their own.
pub fn ask<S: RuleSource, W: Measure>(
    source: &S,
    held: &[u8],
    target: u16,
    marks: &mut [u8],
    labels: &mut [Label<W>],
    plan: &mut [u16],
    rules: &mut [u8],
) -> Result<Found<W>, Refusal>
    ensures { Asked W.zero W.added W.at_most (S.meaning source.now) (Grants (S.meaning source.now)) (GrantsFirst (S.meaning source.now)) held.now target marks.old marks.new labels.old labels.new plan.old plan.new rules.old rules.new result }
{
    let n = source.count() as usize;
    if held.len() < n || marks.len() < n || labels.len() < n || plan.len() < n || rules.len() < n {
        return Err(Refusal::ShortMemory);
    }
    let from = chain_start(source, &held[0..n], target, &mut marks[0..n], labels)?;
    Ok(write_plan(labels, from, target, plan, rules))
}
