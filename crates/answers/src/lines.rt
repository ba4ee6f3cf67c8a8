// A question as its two lines say it.
ghost use Rattle.std.specs.Prelude.{◌≡◌, true, replicate, IfOk, slice_set};
ghost use Rattle.answers.specs.Questions.{NamedByLines};

use print::privilege_of;
use rules::named::Named;
use rules::source::RuleSource;
use std::alloc::{AllocError, Global};
use text::lines;

// Start and goal: the live privileges that the first two lines print, or none where one of them is missing or printed by none.
pub fn start_and_goal<S: Named>(source: &S, question: &[u8]) -> Option<(u16, u16)>
    ensures { NamedByLines (S.RuleSource.meaning source.now) (S.form source.now) question.now result }
{
    let mut lines = lines(question);
    let first = lines.next()?;
    let second = lines.next()?;
    let start = privilege_of(source, first)?;
    let goal = privilege_of(source, second)?;
    Some((start, goal))
}

// The bytes of a held set of n privileges in which p alone is held.
pub fn held_alone(heap: Global, n: usize, p: u16) -> Result<Vec<u8>, AllocError>
    ensures { IfOk result (λ v. v.items ≡ slice_set (replicate n 0) p 1) }
{
    let mut held = vec![in heap; 0u8; n]?;
    if let Some(byte) = held.get_mut(p as usize) {
        *byte = 1;
    }
    Ok(held)
}

// The held bytes of a question over the source: its start alone, which is live, so that something is held.
pub fn held_at<S: RuleSource>(heap: Global, source: &S, start: u16) -> Result<Vec<u8>, AllocError>
    requires { (S.meaning source.now).live start ≡ true }
    ensures { IfOk result (λ v. v.items ≡ slice_set (replicate (S.meaning source.now).count 0) start 1) }
{
    held_alone(heap, source.count() as usize, start)
}
