ghost use Rattle.std.specs.Prelude.{◌≡◌, Bool};
ghost use Rattle.rules.specs.Measures.{Measures};
ghost use Rattle.rules.specs.Weights.{crossed_steps, no_steps, steps_added, steps_at_most, no_crossings, crossings_added, crossings_at_most};
ghost use Rattle.rules.specs.Weighing.{steps_measures, crossings_measures};

use crate::weights::{Crossings, Steps};

// Weights of chains: a zero, a step added, and an order.
pub trait Measure: Copy {
    ghost zero: { Self };

    ghost added: { Self → Bool → Self };

    ghost at_most: { Self → Self → Bool };

    // The weight of no step.
    fn zero() -> Self
        ensures { result ≡ zero };

    // The weight with one step more.
    fn add(&self, crossing: bool) -> Self
        ensures { result ≡ added self.now crossing };

    // Whether the weight is not above the other.
    fn at_most(&self, other: &Self) -> bool
        ensures { result ≡ at_most self.now other.now };

    ghost measures: { Measures zero added at_most };
}

// The steps once a crossing is added: one more, or 65,535 where the crossings have stopped.
fn crossed_steps(crossings: u16, steps: u16) -> u16
    ensures { result ≡ crossed_steps crossings steps }
{
    if crossings < u16::MAX {
        steps.saturating_add(1)
    } else {
        u16::MAX
    }
}

impl Measure for Steps {
    ghost zero = { no_steps };

    ghost added = { steps_added };

    ghost at_most = { steps_at_most };

    ghost measures = { steps_measures };

    fn zero() -> Steps {
        Steps { count: 0 }
    }

    fn add(&self, _crossing: bool) -> Steps {
        Steps {
            count: self.count.saturating_add(1),
        }
    }

    fn at_most(&self, other: &Steps) -> bool {
        self <= other
    }
}

impl Measure for Crossings {
    ghost zero = { no_crossings };

    ghost added = { crossings_added };

    ghost at_most = { crossings_at_most };

    ghost measures = { crossings_measures };

    fn zero() -> Crossings {
        Crossings {
            crossings: 0,
            steps: 0,
        }
    }

    fn add(&self, crossing: bool) -> Crossings {
        if crossing {
            Crossings {
                crossings: self.crossings.saturating_add(1),
                steps: crossed_steps(self.crossings, self.steps),
            }
        } else {
            Crossings {
                crossings: self.crossings,
                steps: self.steps.saturating_add(1),
            }
        }
    }

    fn at_most(&self, other: &Crossings) -> bool {
        self <= other
    }
}
