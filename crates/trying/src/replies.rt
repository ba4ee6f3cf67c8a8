// Prints what a call was and what it was replied.
use crate::script::Verb;
use rules::named::Named;
use std::io;

fn print_form<S: Named>(rt: &HostRuntime, source: &S, p: u16) -> io::Result<()> {
    rt.write_all(b"  ")?;
    rt.write_all(source.print(p).as_slice())?;
    rt.write_all(b"\n")
}

// Prints a call: its number and verb, and the forms of its privileges below.
pub fn print_call<S: Named>(
    rt: &HostRuntime,
    source: &S,
    number: u32,
    verb: Verb,
    privileges: &[u16],
) -> io::Result<()> {
    println!(rt; "Call {number}: {verb}")?;
    for p in privileges {
        print_form(rt, source, *p)?;
    }
    Ok(())
}
