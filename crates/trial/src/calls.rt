use layers::refusal::Refusal;
use search::answer::{Found, Refusal as Unanswered};
use std::alloc::{AllocError, Global};

// What changes a trial.
#[derive(Clone, Copy)]
pub enum Change {
    // the first is to grant the second
    Assume(u16, u16),
    Withdraw(u16, u16),
    Bar(u16),
    Lift(u16),
}

// A call of a run.
#[derive(Clone, Copy)]
pub enum Call<'a> {
    Change(Change),
    // the held bytes and the target
    Ask(&'a [u8], u16),
}

// A plan, held end first, and the rule of each step beside it; the first rule is 0.
#[derive(Drop)]
pub struct Plan<W> {
    pub found: Found<W>,
    pub privileges: Vec<u16>,
    pub rules: Vec<u8>,
}

// What a call is replied.
#[derive(Drop)]
pub enum Reply<W> {
    Changed(Result<(), Refusal>),
    Asked(Result<Plan<W>, Unanswered>),
}

// Memory that a plan is written into.
#[derive(Drop)]
pub struct PlanMemory {
    pub plan: Vec<u16>,
    pub rules: Vec<u8>,
}

impl PlanMemory {
    ghost use Rattle.std.specs.Prelude.{IfOk};
    ghost use Rattle.trial.specs.Preparing.{Wide};

    // Memory for a plan of n privileges.
    pub(crate) fn new(heap: Global, n: usize) -> Result<PlanMemory, AllocError>
        ensures { IfOk result (Wide n) }
    {
        let plan = vec![in heap; 0u16; n]?;
        let rules = vec![in heap; 0u8; n]?;
        Ok(PlanMemory { plan, rules })
    }
}
