// Reads a log from standard input, and prints its hand-over sheet.
#![tactic(auto)]

use portal_log::LIMIT;
use sheet::sheet;
use std::io;
use std::io::Read;

fn main(rt: HostRuntime) -> io::Result<()> {
    let heap = rt.alloc();
    let mut log = Vec::new(heap);
    // one byte past the limit tells that a log is too long
    rt.stdin().take(LIMIT as u64 + 1).read_to_end(&mut log)?;
    rt.print(sheet(heap, &log)?)
}
