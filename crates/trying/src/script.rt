// A script: a verb alone on a line, then its forms, one a line.
ghost use Rattle.std.specs.Prelude.{◌≡◌, true, ◌<◌, ◌≤◌, length, MatchOption, IfSome};

use answers::held_at;
use print::privilege_of;
use rules::named::Named;
use std::alloc::{AllocError, Global};
use std::fmt;
use text::next_line;
use trial::calls::{Call, Change};

#[derive(Clone, Copy, Debug, PartialEq, Eq)]
pub enum Verb {
    Assume,
    Withdraw,
    Bar,
    Lift,
    Ask,
}

// A line that is no verb.
#[derive(Clone, Copy, Debug, PartialEq, Eq)]
pub struct NoVerb;

impl<'a> TryFrom<&'a [u8]> for Verb {
    type Error = NoVerb;

    fn try_from(line: &'a [u8]) -> Result<Verb, NoVerb> {
        match line {
            b"assume" => Ok(Verb::Assume),
            b"withdraw" => Ok(Verb::Withdraw),
            b"bar" => Ok(Verb::Bar),
            b"lift" => Ok(Verb::Lift),
            b"ask" => Ok(Verb::Ask),
            _ => Err(NoVerb),
        }
    }
}

impl fmt::Display for Verb {
    fn fmt<W: fmt::Write>(&self, f: &mut fmt::Formatter<W>) -> fmt::Result {
        f.write_str(match self {
            Verb::Assume => "assume",
            Verb::Withdraw => "withdraw",
            Verb::Bar => "bar",
            Verb::Lift => "lift",
            Verb::Ask => "ask",
        })
    }
}

// What a script says, entry by entry.
#[derive(Drop)]
pub enum Entry {
    Change(Change),
    // start, goal, and the held bytes of which the start alone is held; last, so that an entry takes no more room than they do
    Ask(u16, u16, Vec<u8>),
    // a verb one of whose forms no live privilege prints
    NoForm(Verb),
    // the number of a line that is no verb where one is due
    NoVerb(u32),
}

impl Entry {
    // The call of a trial that the entry asks for.
    pub fn call<'a>(&'a self) -> Option<Call<'a>> {
        match self {
            Entry::Change(change) => Some(Call::Change(*change)),
            Entry::Ask(_, goal, held) => Some(Call::Ask(held.as_slice(), *goal)),
            Entry::NoForm(_) | Entry::NoVerb(_) => None,
        }
    }
}

// A script that is being read: what is left of it, and how many lines have gone. The lines are counted here, and not by `enumerate`, since a verb is left for the next
// entry where a form is due.
#[derive(Clone, Copy)]
struct Reader<'a> {
    rest: &'a [u8],
    gone: u32,
}

impl<'a> Reader<'a> {
    fn new(script: &'a [u8]) -> Reader<'a> {
        Reader {
            rest: script,
            gone: 0,
        }
    }

    // The next line.
    fn line(&mut self) -> Option<&'a [u8]>
        ensures { MatchOption result (length self.new.rest.now ≤ length self.old.rest.now) (λ _. length self.new.rest.now < length self.old.rest.now) }
    {
        let (line, rest) = next_line(self.rest)?;
        self.rest = rest;
        self.gone = self.gone.saturating_add(1);
        Some(line)
    }

    // The next line, but no verb: a form that is missing does not cost the next call.
    fn form(&mut self) -> Option<&'a [u8]>
        ensures { MatchOption result (length self.new.rest.now ≤ length self.old.rest.now) (λ _. length self.new.rest.now < length self.old.rest.now) }
    {
        let mut ahead = *self;
        let line = ahead.line()?;
        if Verb::try_from(line).is_ok() {
            return None;
        }
        *self = ahead;
        Some(line)
    }

    // The privilege that the next form names.
    fn privilege<S: Named>(&mut self, source: &S) -> Option<u16>
        ensures left { length self.new.rest.now ≤ length self.old.rest.now }
        ensures live { IfSome result (λ p. (S.RuleSource.meaning source.now).live p ≡ true) }
    {
        privilege_of(source, self.form()?)
    }

    // Passes over lines up to the next verb.
    fn pass_over(&mut self)
        ensures { length self.new.rest.now ≤ length self.old.rest.now }
    {
        while self.form().is_some() {}
    }
}

// The entry that begins with the verb.
fn entry_of<S: Named>(
    heap: Global,
    source: &S,
    reader: &mut Reader,
    verb: Verb,
) -> Result<Entry, AllocError>
    ensures { length reader.new.rest.now ≤ length reader.old.rest.now }
{
    let first = reader.privilege(source);
    let second = match verb {
        Verb::Bar | Verb::Lift => None,
        Verb::Assume | Verb::Withdraw | Verb::Ask => reader.privilege(source),
    };
    match (verb, first, second) {
        (Verb::Assume, Some(p), Some(g)) => Ok(Entry::Change(Change::Assume(p, g))),
        (Verb::Withdraw, Some(p), Some(g)) => Ok(Entry::Change(Change::Withdraw(p, g))),
        (Verb::Bar, Some(p), None) => Ok(Entry::Change(Change::Bar(p))),
        (Verb::Lift, Some(p), None) => Ok(Entry::Change(Change::Lift(p))),
        (Verb::Ask, Some(start), Some(goal)) => {
            let held = held_at(heap, source, start)?;
            Ok(Entry::Ask(start, goal, held))
        }
        _ => Ok(Entry::NoForm(verb)),
    }
}

// All entries of a script.
pub fn entries_of<S: Named>(
    heap: Global,
    source: &S,
    script: &[u8],
) -> Result<Vec<Entry>, AllocError> {
    let mut entries = Vec::new(heap);
    let mut reader = Reader::new(script);
    while let Some(line) = reader.line() {
        match Verb::try_from(line) {
            Ok(verb) => entries.push(entry_of(heap, source, &mut reader, verb)?)?,
            Err(NoVerb) => {
                entries.push(Entry::NoVerb(reader.gone))?;
                reader.pass_over();
            }
        }
    }
    Ok(entries)
}
