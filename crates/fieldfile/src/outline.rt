// The end of a file: how many records its trailer says there are, and the first two checks.
ghost use Rattle.std.specs.Prelude.{◌≡◌, ◌+◌, ◌*◌, cond, drop};
ghost use Rattle.std.specs.Option.{option_map};
ghost use Rattle.records.specs.Checks.{marked, agreed};
ghost use Rattle.records.specs.Readings.{end};
ghost use Rattle.fieldfile.specs.Outlines.{outline_rule};

use super::faults::Check;
use super::numbers::bytes_at;
use super::writing::{MARK, NODE_BYTES, SAMPLE_BYTES, TRAILER_BYTES};
use drawing::MAX_NODES;
use samples::SLOTS;

// How many records of samples and of nodes a file says it has.
#[derive(Clone, Copy, PartialEq, Eq, Debug)]
pub struct Outline {
    pub samples: u16,
    pub nodes: u16,
}

impl Outline {
    // The way back from the trailer to the node records.
    pub(crate) fn back_to_nodes(self) -> u32
        ensures { result ≡ 38 * self.nodes }
    {
        NODE_BYTES as u32 * u32::from(self.nodes)
    }

    // The way back from the trailer to the sample records.
    pub(crate) fn back_to_samples(self) -> u32
        ensures { result ≡ 38 * self.nodes + 20 * self.samples }
    {
        self.back_to_nodes() + SAMPLE_BYTES as u32 * u32::from(self.samples)
    }

    // How long the file is.
    pub(crate) fn file_len(self) -> usize
        ensures { result ≡ 20 * self.samples + 38 * self.nodes + 14 }
    {
        self.back_to_samples() as usize + TRAILER_BYTES
    }

    // Whether the counts are in range and fit these ways back and this length.
    fn agrees(self, to_nodes: u32, to_samples: u32, len: usize) -> bool
        ensures { result ≡ agreed self.samples self.nodes to_nodes to_samples len }
    {
        usize::from(self.samples) <= SLOTS
            && (1..=MAX_NODES).contains(&usize::from(self.nodes))
            && to_nodes == self.back_to_nodes()
            && to_samples == self.back_to_samples()
            && len == self.file_len()
    }
}

// What the trailer of a file says, if it fits the file.
pub fn read_outline(file: &[u8]) -> Result<Outline, Check>
    ensures { result ≡ outline_rule file.now }
{
    let trailer = trailer_of(file).ok_or(Check::Mark)?;
    let outline = Outline {
        samples: u16::from_le_bytes(bytes_at(trailer, 0)),
        nodes: u16::from_le_bytes(bytes_at(trailer, 2)),
    };
    let to_nodes = u32::from_le_bytes(bytes_at(trailer, 4));
    let to_samples = u32::from_le_bytes(bytes_at(trailer, 8));
    outline
        .agrees(to_nodes, to_samples, file.len())
        .then_some(outline)
        .ok_or(Check::Layout)
}

// The last 14 bytes of a file, if they end with the mark.
fn trailer_of(file: &[u8]) -> Option<&[u8; TRAILER_BYTES]>
    ensures { option_map (λ t. t.now) result ≡ cond (marked file.now) (Some (drop (end file.now) file.now)) None }
{
    let trailer = file.last_chunk()?;
    trailer.ends_with(&MARK).then_some(trailer)
}
