// Reads a graph sheet from standard input and prints what is in it, or one line that says why it is refused.
#![tactic(auto)]

use sheet_report::report::report;
use std::io;
use std::io::Read;

// One byte more than the largest sheet has: a longer input is refused by its length.
const MOST_BYTES: u64 = 22538;

fn main(rt: HostRuntime) -> io::Result<()> {
    let mut bytes = Vec::new(rt.alloc());
    rt.stdin().take(MOST_BYTES).read_to_end(&mut bytes)?;
    let text = report(rt.alloc(), &bytes)?;
    print!(rt; "{text}")
}
