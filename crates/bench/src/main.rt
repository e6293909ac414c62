// Reads a script from standard input and prints the answer to each of its lines, by walks on a reader.
#![tactic(auto)]

use script::MAX_BYTES;
use session::answer;
use std::io::Read;

// One byte more than a script may have tells that it is too long.
const LIMIT: u64 = MAX_BYTES as u64 + 1;

fn run(rt: &HostRuntime) -> anyhow::Result<()> {
    let mut text = Vec::new(rt.alloc());
    rt.stdin().take(LIMIT).read_to_end(&mut text)?;
    let answers = answer(rt.alloc(), &text)?;
    rt.print(answers)?;
    Ok(())
}

fn main(rt: HostRuntime) -> anyhow::Result<()> {
    run(&rt)
}
