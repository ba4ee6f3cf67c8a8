// Answers one question over a region's folder: the least chain, or that there is none.
#![tactic(auto)]

use planning::run;
use std::process::ExitCode;

fn main(rt: HostRuntime) -> anyhow::Result<ExitCode> {
    run(&rt)
}
