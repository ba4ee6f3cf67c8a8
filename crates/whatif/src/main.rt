// Tries changes on a region: reads its folder and a script of assume, withdraw, bar, lift and ask, and prints what each call did.
// Arguments: the folder (else the current one), and `crossings` for the measure that counts crossings first (else steps).
#![tactic(auto)]

use answers::Outcome;
use folder::{Stopped, bytes_of};
use planning::{closed_site, or_refused};
use rules::weights::{Crossings, Steps};
use site::ClosedSite;
use std::process::ExitCode;
use std::{env, io};
use trying::play;

// By which measure chains are weighed.
#[derive(Clone, Copy, Debug, PartialEq, Eq)]
enum Weighed {
    Steps,
    Crossings,
}

// What the arguments choose.
#[derive(Drop)]
struct Choice {
    folder: String,
    weighed: Weighed,
}

fn read_arguments(rt: &HostRuntime) -> io::Result<Choice> {
    let mut folder = String::from_str(rt.alloc(), ".")?;
    let mut weighed = Weighed::Steps;
    for word in env::args(rt)?.skip(1) {
        if word.as_str() == "crossings" {
            weighed = Weighed::Crossings;
        } else {
            folder = word;
        }
    }
    Ok(Choice { folder, weighed })
}

fn play_script(rt: &HostRuntime, chosen: &Choice) -> Result<Outcome, Stopped> {
    let site = closed_site(rt, chosen.folder.as_str())?;
    let script = bytes_of(rt, rt.stdin())?;
    match chosen.weighed {
        Weighed::Steps => play::<ClosedSite, Steps>(rt, site, script.as_slice())?,
        Weighed::Crossings => play::<ClosedSite, Crossings>(rt, site, script.as_slice())?,
    }
    Ok(Outcome::Answered)
}

fn main(rt: HostRuntime) -> anyhow::Result<ExitCode> {
    let chosen = read_arguments(&rt)?;
    Ok(or_refused(&rt, play_script(&rt, &chosen))?.into())
}
