// A session: k, ℓ and the records of eight block numbers. The rows it works on are lent to each call.
mod calls;
pub(crate) mod checks;
mod draining;
mod solving;
mod taking;

use answer::Tally;

// A number that is open has a tally, and its rows hold the reduced form of what was taken.
#[derive(Drop)]
pub struct Session {
    k: usize,
    l: usize,
    numbers: [Option<Tally>; 8],
}
