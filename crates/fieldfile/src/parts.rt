// The records of a file as parts of its bytes: nothing is copied before a field is read.
ghost use Rattle.std.specs.Prelude.{◌≡◌};
ghost use Rattle.std.specs.Option.{option_map};
ghost use Rattle.fieldfile.specs.Parts.{part_of, part_at};

use super::outline::Outline;
use super::writing::{NODE_BYTES, SAMPLE_BYTES, TRAILER_BYTES};

#[derive(Clone, Copy)]
pub enum Record<'a> {
    Sample(&'a [u8]),
    Node(&'a [u8]),
    Trailer(&'a [u8]),
}

// Record i of a file with this outline: the samples, then the nodes, then the trailer.
pub fn record_at<'a>(file: &'a [u8], outline: Outline, i: usize) -> Option<Record<'a>>
    ensures { option_map part_of result ≡ part_at file.now outline i }
{
    let samples = usize::from(outline.samples);
    let nodes = usize::from(outline.nodes);
    let nodes_at = SAMPLE_BYTES * samples;
    if i < samples {
        let at = SAMPLE_BYTES * i;
        file.get(at..at + SAMPLE_BYTES).map(Record::Sample)
    } else if i < samples + nodes {
        let at = nodes_at + NODE_BYTES * (i - samples);
        file.get(at..at + NODE_BYTES).map(Record::Node)
    } else if i == samples + nodes {
        let at = nodes_at + NODE_BYTES * nodes;
        file.get(at..at + TRAILER_BYTES).map(Record::Trailer)
    } else {
        None
    }
}
