// Reads a block sheet from standard input, and prints the log lines that a sender gives out for it.
#![tactic(auto)]

#[cfg(test)]
mod tests;

use sending::send;
use std::io;
use std::io::Read;

fn main(rt: HostRuntime) -> io::Result<()> {
    let heap = rt.alloc();
    let mut sheet = Vec::new(heap);
    rt.stdin().read_to_end(&mut sheet)?;
    rt.print(send(heap, &sheet)?)
}
