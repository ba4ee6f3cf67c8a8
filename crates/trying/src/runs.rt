// Runs the calls of a script over a source, and tells what each of them did.
use crate::replies::print_call;
use crate::script::{Entry, Verb, entries_of};
use answers::{print_reply, refuse};
use rules::measure::Measure;
use rules::named::Named;
use search::answer::Refusal;
use std::io;
use trial::calls::{Call, Change, Reply};
use trial::prepared_calls::PreparedCalls;

// Prints an entry under its number, with the reply if it is a call.
fn tell_entry<S: Named, W: Measure>(
    rt: &HostRuntime,
    source: &S,
    number: u32,
    entry: &Entry,
    reply: Option<&Reply<W>>,
) -> io::Result<()> {
    match entry {
        Entry::Change(Change::Assume(p, g)) => {
            print_call(rt, source, number, Verb::Assume, &[*p, *g])?
        }
        Entry::Change(Change::Withdraw(p, g)) => {
            print_call(rt, source, number, Verb::Withdraw, &[*p, *g])?
        }
        Entry::Change(Change::Bar(p)) => print_call(rt, source, number, Verb::Bar, &[*p])?,
        Entry::Change(Change::Lift(p)) => print_call(rt, source, number, Verb::Lift, &[*p])?,
        Entry::Ask(start, goal, _) => print_call(rt, source, number, Verb::Ask, &[*start, *goal])?,
        Entry::NoForm(verb) => {
            print_call(rt, source, number, *verb, &[])?;
            refuse(rt, Refusal::NotLive.into())?;
        }
        Entry::NoVerb(line) => println!(rt; "Line {line}: no verb.")?,
    }
    if let Some(reply) = reply {
        print_reply(rt, source, reply)?;
    }
    Ok(())
}

// Prints the entries with the replies to those that are calls.
fn tell<S: Named, W: Measure>(
    rt: &HostRuntime,
    source: &S,
    entries: &[Entry],
    replies: &[Reply<W>],
) -> io::Result<()> {
    // a line that is no verb bears no number and has no reply, so both are taken by the way
    let mut number: u32 = 1;
    let mut replies = replies.iter();
    for entry in entries {
        let reply = entry.call().and_then(|_| replies.next());
        tell_entry(rt, source, number, entry, reply)?;
        if !matches!(entry, Entry::NoVerb(_)) {
            number = number.saturating_add(1);
        }
    }
    Ok(())
}

// Runs a script over the source by the measure W.
pub fn play<S: Named + Drop, W: Measure>(
    rt: &HostRuntime,
    source: S,
    script: &[u8],
) -> io::Result<()> {
    let heap = rt.alloc();
    let entries = entries_of(heap, &source, script)?;
    let calls: Vec<Call> = entries
        .iter()
        .filter_map(|entry| entry.call())
        .collect(heap)?;
    let prepared: PreparedCalls<S, W> = PreparedCalls::new(heap, source, calls.as_slice())?;
    let done = prepared.run();
    tell(rt, &done.trial, entries.as_slice(), done.replies.as_slice())
}
