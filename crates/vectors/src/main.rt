// Reads many texts, each into tables of its own, and prints what was kept or by which number it was refused. The texts are the examples of the
// manual pages and texts at the edges of every limit; `cases` has each as a line with its kind, its name and the length of its text, and then the text.
#![tactic(auto)]

ghost use Rattle.std.specs.Prelude.{◌<◌, length, IfSome};

mod rows;

use listing::{Files, read_files};
use print::refusal_line;
use reading::{Kind, SiteFault, TextFault};
use rows::{print_accounts, print_domain, print_files, print_groups, print_hosts, print_trust};
use std::{fs, io};
use tables::{Accounts, Groups, HostNames, read_accounts, read_groups, read_hosts};
use text::{next_line, number_of, words};
use trust::{Domain, TrustLines, read_domain, read_equiv, read_rhosts};

// What was read before: the hosts and the accounts that other texts name.
#[derive(Drop)]
struct Before {
    hosts: HostNames,
    accounts: Accounts,
}

fn what_was_read(rt: &HostRuntime) -> io::Result<Before> {
    let heap = rt.alloc();
    let mut hosts = HostNames::new(heap)?;
    let _ = read_hosts(&mut hosts, fs::read(rt, "hosts")?.as_slice());
    let mut accounts = Accounts::new(heap)?;
    let _ = read_accounts(&mut accounts, fs::read(rt, "passwd")?.as_slice());
    Ok(Before { hosts, accounts })
}

// Prints what was kept of a text, or its refusal; the host is 0.
fn told<P: FnOnce() -> io::Result<()>>(
    rt: &HostRuntime,
    read: Result<(), TextFault>,
    print_kept: P,
) -> io::Result<()>
    requires { P.IsAlwaysCallable print_kept }
{
    match read {
        Ok(()) => print_kept(),
        Err(fault) => rt.write_all(refusal_line(SiteFault::from((0, fault)).into()).as_slice()),
    }
}

// Reads the text of a kind and prints what it says.
fn read(rt: &HostRuntime, before: &Before, kind: Kind, text: &[u8]) -> io::Result<()> {
    let heap = rt.alloc();
    match kind {
        Kind::Hosts => {
            let mut hosts = HostNames::new(heap)?;
            let read = read_hosts(&mut hosts, text);
            told(rt, read, || print_hosts(rt, hosts.as_slice()))
        }
        Kind::Passwd => {
            let mut accounts = Accounts::new(heap)?;
            let read = read_accounts(&mut accounts, text);
            told(rt, read, || print_accounts(rt, accounts.as_slice()))
        }
        Kind::Group => {
            let mut groups = Groups::new(heap)?;
            let read = read_groups(&before.accounts, &mut groups, text);
            told(rt, read, || print_groups(rt, groups.as_slice()))
        }
        Kind::Mtree => {
            let mut files = Files::new(heap)?;
            let read = read_files(&mut files, text);
            told(rt, read, || print_files(rt, files.as_slice()))
        }
        Kind::Equiv => {
            let mut lines = TrustLines::new(heap)?;
            let read = read_equiv(&mut lines, text);
            told(rt, read, || print_trust(rt, lines.as_slice()))
        }
        Kind::Ypconf => {
            let mut domain: Option<Domain> = None;
            let read = read_domain(&before.hosts, &mut domain, text);
            told(rt, read, || print_domain(rt, domain))
        }
        Kind::Rhosts => {
            let mut lines = TrustLines::new(heap)?;
            let read = read_rhosts(&mut lines, text);
            told(rt, read, || print_trust(rt, lines.as_slice()))
        }
    }
}

// The kind, the name and the length that a case begins with.
fn head_of(line: &[u8]) -> Option<(Kind, &[u8], usize)> {
    let mut words = words(line);
    // a number past those of the kinds is taken for a .rhosts
    let kind = Kind::try_from(number_of(words.next()?)?).unwrap_or(Kind::Rhosts);
    let name = words.next()?;
    let length = number_of(words.next()?)?;
    Some((kind, name, length as usize))
}

// A case, and what follows it.
#[derive(Clone, Copy)]
struct Case<'a> {
    kind: Kind,
    name: &'a [u8],
    text: &'a [u8],
    rest: &'a [u8],
}

fn case_of<'a>(all: &'a [u8]) -> Option<Case<'a>>
    ensures { IfSome result (λ c. length c.rest.now < length all.now) }
{
    let (head, after) = next_line(all)?;
    let (kind, name, length) = head_of(head)?;
    let (text, ended) = after.split_at_checked(length)?;
    let (_end, rest) = ended.split_first()?;
    Some(Case {
        kind,
        name,
        text,
        rest,
    })
}

fn main(rt: HostRuntime) -> io::Result<()> {
    let before = what_was_read(&rt)?;
    let cases = fs::read(&rt, "cases")?;
    let mut all = cases.as_slice();
    while let Some(case) = case_of(all) {
        rt.write_all(case.name)?;
        rt.write_all(b"\n")?;
        read(&rt, &before, case.kind, case.text)?;
        all = case.rest;
    }
    if all.is_empty() {
        Ok(())
    } else {
        Err(io::Error::from(io::ErrorKind::InvalidData))
    }
}
