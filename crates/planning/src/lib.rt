// What `plan` does: reads a region's folder, closes the site, asks the question, and prints the answer or the first refusal.
#![tactic(auto)]

use answers::{Outcome, answer, refuse};
use folder::{Stopped, bytes_of, read_region};
use rules::weights::Steps;
use site::{ClosedSite, try_close};
use std::io::Read;
use std::process::ExitCode;
use std::{env, io};

// The closed site of a folder.
pub fn closed_site(rt: &HostRuntime, folder: &str) -> Result<ClosedSite, Stopped> {
    let site = read_region(rt, folder)?;
    Ok(try_close(site).map_err(|(_site, fault)| fault)?)
}

// Prints the refusal of a text, if that is why it was stopped.
pub fn or_refused(rt: &HostRuntime, done: Result<Outcome, Stopped>) -> io::Result<Outcome> {
    match done {
        Ok(outcome) => Ok(outcome),
        Err(Stopped::Refused(fault)) => refuse(rt, fault.into()),
        Err(Stopped::Failed(error)) => Err(error),
    }
}

fn ask(rt: &HostRuntime, folder: &str, question: &[u8]) -> Result<Outcome, Stopped> {
    let site = closed_site(rt, folder)?;
    Ok(answer::<ClosedSite, Steps>(rt, site, question)?)
}

// Answers a question over a region's folder, or prints the first refusal.
pub fn answer_folder(rt: &HostRuntime, folder: &str, question: &[u8]) -> io::Result<Outcome> {
    or_refused(rt, ask(rt, folder, question))
}

// The folder that is given as the only argument, or the current one.
fn folder_of(rt: &HostRuntime) -> io::Result<String> {
    match env::args(rt)?.nth(1) {
        Some(folder) => Ok(folder),
        None => Ok(String::from_str(rt.alloc(), ".")?),
    }
}

// Runs the program; the status tells an answer from a refusal.
pub fn run(rt: &HostRuntime) -> anyhow::Result<ExitCode> {
    let folder = folder_of(rt)?;
    // start and goal are far shorter than this
    let question = bytes_of(rt, rt.stdin().take(8192))?;
    Ok(answer_folder(rt, folder.as_str(), question.as_slice())?.into())
}
