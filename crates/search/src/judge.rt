ghost use Rattle.std.specs.Prelude.{◌≤◌, length};
ghost use Rattle.search.specs.Outcomes.{Judged};

use crate::answer::Refusal;
use rules::source::RuleSource;

// Whether the question is well formed: the bytes of the held set first, then what is live.
pub fn judge<S: RuleSource>(source: &S, held: &[u8], target: u16) -> Result<(), Refusal>
    requires { length held.now ≤ 8192 }
    ensures { Judged (S.meaning source.now) held.now target result }
{
    let mut dead = false;
    let mut p: u16 = 0;
    // The project's form for held bytes: a `for` over them, with the privilege counted beside it.
    for b in held {
        match *b {
            0 => {}
            1 => {
                if !source.live(p) {
                    dead = true;
                }
            }
            _ => return Err(Refusal::BadHeldByte),
        }
        p += 1;
    }
    if dead || !source.live(target) {
        return Err(Refusal::NotLive);
    }
    Ok(())
}
