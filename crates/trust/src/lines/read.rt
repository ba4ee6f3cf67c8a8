// Reads hosts.equiv, which has room for 16 lines, and a .rhosts, which has room for 4.
ghost use Rattle.std.specs.Prelude.{◌≡◌, true, List, [], length, is_ok};
ghost use Rattle.region.specs.Tables.{TrustEntry};
ghost use Rattle.reading.specs.Reads.{entry_lines, text_told, value_or};
ghost use Rattle.reading.specs.declared.fault.Kind.TheVariants.{Equiv, Rhosts};
ghost use Rattle.trust.specs.Formed.{TrustSound};
ghost use Rattle.trust.specs.TrustText.{trust_of, trust_step, trust_in};

use super::TrustLines;
use crate::words::line_of;
use reading::{Kind, Refusal, Table, TextFault, is_passed_over, read_text};

impl<const N: usize> Table for TrustLines<N> {
    type Beside = ();

    ghost Seen = { List TrustEntry };

    ghost seen = { λ t. trust_of t };

    ghost first = { [] };

    ghost step = { λ _ rows l. trust_step N rows l };

    fn clear(&mut self) {
        self.rows.clear();
    }

    fn line(&mut self, _beside: &(), line: &[u8]) -> Result<(), Refusal> {
        if is_passed_over(line) {
            return Ok(());
        }
        let row = line_of(line)?;
        self.rows.push(row)?;
        Ok(())
    }
}

fn read_lines<const N: usize>(
    kind: Kind,
    lines: &mut TrustLines<N>,
    text: &[u8],
) -> Result<(), TextFault>
    ensures told { result ≡ text_told kind (trust_in N text.now) }
    ensures held { trust_of lines.new ≡ value_or [] (trust_in N text.now) }
    ensures sound { TrustSound N (trust_of lines.new) }
    ensures counted { is_ok result ≡ true → length (trust_of lines.new) ≡ length (entry_lines text.now) }
{
    read_text(kind, lines, &(), text)
}

// Puts the lines of hosts.equiv in place of those in the table; a text that is refused leaves it empty.
pub fn read_equiv(lines: &mut TrustLines<16>, text: &[u8]) -> Result<(), TextFault>
    ensures told { result ≡ text_told Equiv (trust_in 16 text.now) }
    ensures held { trust_of lines.new ≡ value_or [] (trust_in 16 text.now) }
    ensures sound { TrustSound 16 (trust_of lines.new) }
    ensures counted { is_ok result ≡ true → length (trust_of lines.new) ≡ length (entry_lines text.now) }
{
    read_lines(Kind::Equiv, lines, text)
}

// Puts the lines of a .rhosts in place of those in the table; a text that is refused leaves it empty.
pub fn read_rhosts(lines: &mut TrustLines<4>, text: &[u8]) -> Result<(), TextFault>
    ensures told { result ≡ text_told Rhosts (trust_in 4 text.now) }
    ensures held { trust_of lines.new ≡ value_or [] (trust_in 4 text.now) }
    ensures sound { TrustSound 4 (trust_of lines.new) }
    ensures counted { is_ok result ≡ true → length (trust_of lines.new) ≡ length (entry_lines text.now) }
{
    read_lines(Kind::Rhosts, lines, text)
}
