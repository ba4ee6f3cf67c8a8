// A refusal as it is printed.
ghost use Rattle.std.specs.Prelude.{◌≡◌};
ghost use Rattle.print.specs.Refused.{of_region, of_question};
ghost use Rattle.search.specs.Refusals.{number as asking_number};
ghost use Rattle.layers.specs.Answers.{number as layer_number};

use layers::refusal::Refusal as Unchanged;
use reading::SiteFault;
use search::answer::Refusal as Unanswered;

// The number of a refusal, and the line, the text and the host where it came about; each 0 where there is none.
#[derive(Clone, Copy, Debug, PartialEq, Eq)]
pub struct Refused {
    pub number: u8,
    pub line: u32,
    pub text: u8,
    pub host: u8,
}

impl Refused {
    // What is refused of a question or of a call of a trial, which has the number 7 among the texts.
    fn of_question(number: u8) -> Refused
        ensures { result ≡ of_question number }
    {
        Refused {
            number,
            line: 0,
            text: 7,
            host: 0,
        }
    }
}

impl From<SiteFault> for Refused {
    ghost from_gives = { λ f r. r ≡ of_region f };

    fn from(f: SiteFault) -> Refused {
        Refused {
            number: f.fault.fault.refusal.number(),
            line: f.fault.fault.line,
            text: f.fault.kind.number(),
            host: f.host,
        }
    }
}

impl From<Unanswered> for Refused {
    ghost from_gives = { λ e r. r ≡ of_question (asking_number e) };

    fn from(e: Unanswered) -> Refused {
        Refused::of_question(e.number())
    }
}

impl From<Unchanged> for Refused {
    ghost from_gives = { λ e r. r ≡ of_question (layer_number e) };

    fn from(e: Unchanged) -> Refused {
        Refused::of_question(e.number())
    }
}
