// The lines of a plan, of no chain, and of a refusal.
ghost use Rattle.std.specs.Prelude.{◌≡◌};
ghost use Rattle.bounded.specs.ArrayVecs.{items_of};
ghost use Rattle.print.specs.Lines.{plan_line, no_chain_line, refusal_line};

use crate::numbers::put_number;
use crate::refused::Refused;
use bounded::ArrayVec;
use rules::named::Named;

// The line of a plan that names the privilege p as its number k.
pub fn plan_line<S: Named>(source: &S, k: u32, p: u16) -> ArrayVec<u8, 160>
    ensures { items_of result ≡ plan_line k (S.form source.now p) }
{
    let mut out = ArrayVec::new(0);
    put_number(&mut out, k);
    out.add(b". ");
    out.add(source.print(p).as_slice());
    out.add(b"\n");
    out
}

// The line that says that there is no chain.
pub fn no_chain_line() -> ArrayVec<u8, 16>
    ensures { items_of result ≡ no_chain_line }
{
    let mut out = ArrayVec::new(0);
    out.add(b"No chain.\n");
    out
}

// The line of a refusal.
pub fn refusal_line(refused: Refused) -> ArrayVec<u8, 80>
    ensures { items_of result ≡ refusal_line refused.number refused.line refused.text refused.host }
{
    let mut out = ArrayVec::new(0);
    out.add(b"Refused ");
    put_number(&mut out, refused.number as u32);
    out.add(b", line ");
    put_number(&mut out, refused.line);
    out.add(b", text ");
    put_number(&mut out, refused.text as u32);
    out.add(b", host ");
    put_number(&mut out, refused.host as u32);
    out.add(b".\n");
    out
}
