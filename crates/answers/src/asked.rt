// One question, answered in printed lines.
use crate::lines::{held_at, start_and_goal};
use print::{Refused, no_chain_line, plan_line, refusal_line};
use rules::measure::Measure;
use rules::named::Named;
use search::answer::Refusal;
use std::io;
use std::process::ExitCode;
use trial::calls::{Call, Plan, Reply};
use trial::prepared_calls::PreparedCalls;

// Whether there was an answer, a plan or that there is no chain, or a refusal, which is no answer.
#[derive(Clone, Copy, Debug, PartialEq, Eq)]
pub enum Outcome {
    Answered,
    Refused,
}

// The status of a program tells an answer from a refusal.
impl From<Outcome> for ExitCode {
    fn from(outcome: Outcome) -> ExitCode {
        match outcome {
            Outcome::Answered => ExitCode::SUCCESS,
            Outcome::Refused => ExitCode::FAILURE,
        }
    }
}

// Prints a refusal.
pub fn refuse(rt: &HostRuntime, refused: Refused) -> io::Result<Outcome> {
    rt.write_all(refusal_line(refused).as_slice())?;
    Ok(Outcome::Refused)
}

// Prints what a question was answered: the plan, that there is no chain, or the refusal. No other way prints `No chain.`
fn print_answer<S: Named, W>(
    rt: &HostRuntime,
    source: &S,
    answer: &Result<Plan<W>, Refusal>,
) -> io::Result<Outcome> {
    match answer {
        Ok(plan) => {
            for (k, p) in (1..).zip(plan.privileges.iter()) {
                rt.write_all(plan_line(source, k, *p).as_slice())?;
            }
            Ok(Outcome::Answered)
        }
        Err(Refusal::NoChain) => {
            rt.write_all(no_chain_line().as_slice())?;
            Ok(Outcome::Answered)
        }
        Err(refusal) => refuse(rt, (*refusal).into()),
    }
}

// Prints the reply to a call.
pub fn print_reply<S: Named, W>(
    rt: &HostRuntime,
    source: &S,
    reply: &Reply<W>,
) -> io::Result<Outcome> {
    match reply {
        Reply::Changed(Ok(())) => {
            rt.write_all(b"Accepted.\n")?;
            Ok(Outcome::Answered)
        }
        Reply::Changed(Err(refusal)) => refuse(rt, (*refusal).into()),
        Reply::Asked(answer) => print_answer(rt, source, answer),
    }
}

// Answers the question of two lines, start and goal, over the source by the measure W.
pub fn answer<S: Named + Drop, W: Measure>(
    rt: &HostRuntime,
    source: S,
    question: &[u8],
) -> io::Result<Outcome> {
    let heap = rt.alloc();
    let Some((start, goal)) = start_and_goal(&source, question) else {
        return refuse(rt, Refusal::NotLive.into());
    };
    let held = held_at(heap, &source, start)?;
    let calls = [Call::Ask(held.as_slice(), goal)];
    let prepared: PreparedCalls<S, W> = PreparedCalls::new(heap, source, &calls)?;
    let done = prepared.run();
    match done.replies.first() {
        Some(reply) => print_reply(rt, &done.trial, reply),
        None => unreachable!(),
    }
}
