ghost use Rattle.search.specs.Plans.{Fitting, Done};

use crate::answer::Found;
use rules::measure::Measure;
use rules::weights::Label;

// Writes the plan that the labels lead along, with each step's rule beside it, and answers how many steps it has and what it weighs.
pub fn write_plan<W: Measure>(
    labels: &[Label<W>],
    from: u16,
    target: u16,
    plan: &mut [u16],
    rules: &mut [u8],
) -> Found<W>
    requires { Fitting W.zero labels.now target from plan.old rules.old }
    ensures { Done W.zero labels.now target from result plan.old plan.new rules.old rules.new }
{
    plan[0] = from;
    rules[0] = 0;
    let mut at = from;
    let mut steps: u16 = 0;
    // Only the labels tell where the plan ends: a `for` over the two lists would count the steps and stop at the target by hand all the same.
    while at != target {
        let step = &labels[at as usize];
        steps += 1;
        plan[steps as usize] = step.next;
        rules[steps as usize] = step.rule;
        at = step.next;
    }
    let weight = labels[from as usize].weight;
    Found { steps, weight }
}
