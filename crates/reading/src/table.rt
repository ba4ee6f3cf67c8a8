// A table takes a text line by line.
ghost use Rattle.std.specs.Prelude.{◌≡◌, ℕ, ◌≤◌, List, length, Result};
ghost use Rattle.text.specs.Cuts.{lines};
ghost use Rattle.reading.specs.declared.fault.Refusal.{Refusal};
ghost use Rattle.reading.specs.Reads.{value_or, outcome, read_from, read_text, text_told, passed_over};

use crate::fault::{Kind, LineFault, Refusal, TextFault, at};
use text::lines;

pub trait Table {
    // What lines are looked up in: the table of another text, or nothing.
    type Beside;

    // What a table holds, and what it holds on the first day.
    ghost Seen: { Type 0 };

    ghost seen: { Self → Seen };

    ghost first: { Seen };

    // What a line makes of it.
    ghost step: { Self.Beside → Seen → List ℕ → Result Seen Refusal };

    // Makes the table as on the first day.
    fn clear(&mut self)
        ensures { seen self.new ≡ first };

    // Takes one line.
    fn line(&mut self, beside: &Self::Beside, line: &[u8]) -> Result<(), Refusal>
        ensures { outcome result (seen self.new) ≡ step beside.now (seen self.old) line.now };
}

// Whether a line is empty or a comment, in the kinds of texts that pass over such lines.
pub fn is_passed_over(line: &[u8]) -> bool
    ensures { result ≡ passed_over line.now }
{
    matches!(line, [] | [b'#', ..])
}

fn read_lines<T: Table>(table: &mut T, beside: &T::Beside, text: &[u8]) -> Result<(), LineFault>
    requires { length text.now ≤ 8192 }
    ensures { outcome result (T.seen table.new) ≡ read_from (T.step beside.now) 1 (T.seen table.old) (lines text.now) }
{
    for (n, line) in (1..).zip(lines(text)) {
        at(n, table.line(beside, line))?;
    }
    Ok(())
}

// Puts what a text says in place of what the table holds; a text that is refused leaves the table as on the first day.
pub fn read_text<T: Table>(
    kind: Kind,
    table: &mut T,
    beside: &T::Beside,
    text: &[u8],
) -> Result<(), TextFault>
    ensures told { result ≡ text_told kind (read_text (T.step beside.now) T.first text.now) }
    ensures held { T.seen table.new ≡ value_or T.first (read_text (T.step beside.now) T.first text.now) }
{
    table.clear();
    if text.len() > 8192 {
        return Err(TextFault::of_text(kind, Refusal::TooLong));
    }
    let read = read_lines(table, beside, text);
    if read.is_err() {
        table.clear();
    }
    at(kind, read)?;
    Ok(())
}
