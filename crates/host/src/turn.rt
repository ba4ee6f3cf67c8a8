// When a text may be read.
ghost use Rattle.std.specs.Prelude.{◌≡◌};
ghost use Rattle.host.specs.Reads.{in_turn};

use reading::{Kind, Refusal, TextFault};

// Refuses a text that is too long, and then one that is read out of turn or twice.
pub fn in_turn(kind: Kind, text: &[u8], turn: bool) -> Result<(), TextFault>
    ensures { result ≡ in_turn kind text.now turn }
{
    if text.len() > 8192 {
        return Err(TextFault::of_text(kind, Refusal::TooLong));
    }
    if !turn {
        return Err(TextFault::of_text(kind, Refusal::OutOfTurn));
    }
    Ok(())
}
