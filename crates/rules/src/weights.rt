ghost use Rattle.std.specs.Prelude.{◌≤◌};

// The number of steps, stopping at 65,535.
#[derive(Clone, Copy, Debug, PartialEq, Eq, PartialOrd, Ord)]
pub struct Steps {
    pub count: u16,
    ghost fits: { count ≤ 65535 },
}

// The number of crossings, and then that of steps; each stops at 65,535.
#[derive(Clone, Copy, Debug, PartialEq, Eq, PartialOrd, Ord)]
pub struct Crossings {
    pub crossings: u16,
    pub steps: u16,
    ghost fits: { (crossings ≤ 65535) × (steps ≤ 65535) },
}

// What is known of a privilege on its way to a target: the weight from there, the privilege that comes next, and the rule by which that is granted.
#[derive(Clone, Copy)]
pub struct Label<W> {
    pub weight: W,
    pub next: u16,
    pub rule: u8,
}
