// Answers a script from standard input by the walk and by the full scan, side by side, and fails where the two differ.
#![tactic(auto)]

use anyhow::ensure;
use crosscheck::check;
use script::MAX_BYTES;
use std::io::Read;

// One byte more than a script may have tells that it is too long.
const LIMIT: u64 = MAX_BYTES as u64 + 1;

fn run(rt: &HostRuntime) -> anyhow::Result<()> {
    let mut text = Vec::new(rt.alloc());
    rt.stdin().take(LIMIT).read_to_end(&mut text)?;
    let report = check(rt.alloc(), &text)?;
    rt.print(report.text)?;
    ensure!(report.agree, "walk and full scan differ");
    Ok(())
}

fn main(rt: HostRuntime) -> anyhow::Result<()> {
    run(&rt)
}
