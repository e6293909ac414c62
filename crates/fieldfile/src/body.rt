// A file that passes the first two checks: its records are found by their numbers.
ghost use Rattle.std.specs.Prelude.{◌≡◌, ◌+◌, ◌*◌, ◌≤◌, true, length};
ghost use Rattle.records.specs.Checks.{marked, laid_out};
ghost use Rattle.records.specs.Readings.{sample_total, node_total};

use super::outline::Outline;

mod checks;
mod parts;
mod reading;

#[derive(Clone, Copy)]
pub(crate) struct Body<'a> {
    file: &'a [u8],
    outline: Outline,
    ghost marked: { marked file.now ≡ true },
    ghost laid_out: { laid_out file.now ≡ true },
    ghost samples: { outline.samples ≡ sample_total file.now },
    ghost nodes: { outline.nodes ≡ node_total file.now },
    ghost few_samples: { outline.samples ≤ 256 },
    ghost some_nodes: { 1 ≤ outline.nodes },
    ghost few_nodes: { outline.nodes ≤ 1021 },
    ghost size: { length file.now ≡ 20 * outline.samples + 38 * outline.nodes + 14 },
}
