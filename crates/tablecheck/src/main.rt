// Reads a text from standard input, and prints how many records it has or why it is refused.
#![tactic(auto)]

use std::io::Read;
use texts::report::report;

// One byte more than the longest text that is read, so that a longer one is seen to be too long.
const ENOUGH: u64 = 65537;

fn main(rt: HostRuntime) -> anyhow::Result<()> {
    let mut text = Vec::new(rt.alloc());
    rt.stdin().take(ENOUGH).read_to_end(&mut text)?;
    let line = report(rt.alloc(), &text)?;
    print!(rt; "{line}")?;
    Ok(())
}
