// Says of each field file that it is given what the file holds, or which check it fails first.
#![tactic(auto)]

use fieldfile::{MAX_FILE, examine};
use std::io::Read;
use std::{env, fs};

// One byte more than a file may have tells that it is too long.
const LIMIT: u64 = MAX_FILE as u64 + 1;

fn read(rt: &HostRuntime, path: &str) -> anyhow::Result<Vec<u8>> {
    let mut file = Vec::new(rt.alloc());
    fs::open(rt, path)?.take(LIMIT).read_to_end(&mut file)?;
    Ok(file)
}

fn report(rt: &HostRuntime, path: &str) -> anyhow::Result<()> {
    let file = read(rt, path)?;
    match examine(&file) {
        Ok(found) => {
            let samples = found.samples;
            let nodes = found.nodes;
            let bytes = if found.same {
                "the same bytes"
            } else {
                "other bytes"
            };
            println!(rt; "{path}: {samples} samples, {nodes} nodes, written back as {bytes}")?;
        }
        Err(fault) => {
            let check = u8::from(fault.check);
            let record = fault.record;
            println!(rt; "{path}: check {check} fails at record {record}")?;
        }
    }
    Ok(())
}

fn main(rt: HostRuntime) -> anyhow::Result<()> {
    for path in env::args(&rt)?.skip(1) {
        report(&rt, path.as_str())?;
    }
    Ok(())
}
