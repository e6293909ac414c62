// A field written as a file.
ghost use Rattle.std.specs.Prelude.{◌≡◌, ◌*◌, ◌≤◌};
ghost use Rattle.field.specs.Fields.{holds, tree, counts, node_count};
ghost use Rattle.samples.specs.Verdict.{samples};
ghost use Rattle.fieldfile.specs.Cursors.{left, Adds};
ghost use Rattle.records.specs.Format.{samples_bytes, nodes_bytes};
ghost use Rattle.records.specs.Rules.{Keeps};
ghost use Rattle.fieldfile.specs.Format.{file_of, Writes};

use super::cursor::Cursor;
use super::outline::Outline;
use super::writing::{NODE_BYTES, SAMPLE_BYTES, TRAILER_BYTES};
use drawing::MAX_NODES;
use field::Field;
use samples::{Refusal, SLOTS};

// The bytes of the largest file: 256 samples and 1,021 nodes.
pub const MAX_FILE: usize = SAMPLE_BYTES * SLOTS + NODE_BYTES * MAX_NODES + TRAILER_BYTES;

// Writes the file of a field to the front of a buffer and says how long it is.
pub fn write(field: &Field, out: &mut [u8]) -> Result<usize, Refusal>
    ensures bytes { Writes (file_of field.now) out.old out.new result }
    ensures rules { Keeps (file_of field.now) }
{
    let outline = Outline::of(field);
    let len = outline.file_len();
    if out.len() < len {
        return Err(Refusal::BufferTooSmall);
    }
    let mut file = Cursor::new(out);
    file.put_samples(field);
    file.put_nodes(field);
    file.put_trailer(outline);
    Ok(len)
}

impl Outline {
    // The outline of a field's file.
    fn of(field: &Field) -> Outline
        ensures samples { result.samples ≡ samples (holds field.now) }
        ensures nodes { result.nodes ≡ node_count field.now }
    {
        Outline {
            samples: field.slots().count(),
            nodes: field.nodes().len() as u16,
        }
    }
}

impl Cursor<'_> {
    // The sample records, in rising slot order.
    fn put_samples(&mut self, field: &Field)
        requires { 20 * samples (holds field.now) ≤ left self.old }
        ensures { Adds self.old self.new (samples_bytes (holds field.now) (node_count field.now) (tree field.now) 256) }
    {
        for (slot, sample) in field.slots().iter() {
            let leaf = field.leaf_of(sample.values());
            self.put_sample(slot, leaf as u16, sample);
        }
    }

    // The node records, in number order.
    fn put_nodes(&mut self, field: &Field)
        requires { 38 * node_count field.now ≤ left self.old }
        ensures { Adds self.old self.new (nodes_bytes (tree field.now) (counts field.now) (node_count field.now)) }
    {
        for node in field.nodes() {
            self.put_node(node);
        }
    }
}
