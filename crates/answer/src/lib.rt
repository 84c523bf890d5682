// What calls answer: refusals, and what the calls of a session give.
#![tactic(auto)]

pub mod refusal;

// The dimension of what was taken, and whether the last packet raised it.
#[derive(Clone, Copy, PartialEq, Eq, Debug)]
pub struct Taken {
    pub dimension: usize,
    pub rose: bool,
}

// How many packets of a feed were kept, and how many were passed over.
#[derive(Clone, Copy, PartialEq, Eq, Debug)]
pub struct Drained {
    pub kept: usize,
    pub passed: usize,
}

// How many packets were taken, and the dimension of what they span.
#[derive(Clone, Copy, PartialEq, Eq, Debug)]
pub struct Tally {
    pub taken: usize,
    pub dimension: usize,
}

// The dimension of what was taken, and how it differs from the codeword space: what was lost of it, what is foreign, and both.
#[derive(Clone, Copy, PartialEq, Eq, Debug)]
pub struct Solved {
    pub dimension: usize,
    pub lost: usize,
    pub foreign: usize,
    pub faults: usize,
}
