// The records of a field file, written one behind the other.
ghost use Rattle.std.specs.Prelude.{◌≡◌, ◌≤◌};
ghost use Rattle.boxes.specs.Views.{entries, kind_of, node_of};
ghost use Rattle.fieldfile.specs.Cursors.{left, Adds};
ghost use Rattle.records.specs.Format.{kind_code, sample_record, node_record, trailer_bytes};

use super::cursor::Cursor;
use super::outline::Outline;
use boxes::{Kind, Node};
use samples::Sample;

// The bytes of a sample record, a node record and the trailer.
pub(crate) const SAMPLE_BYTES: usize = 20;

pub(crate) const NODE_BYTES: usize = 38;

pub(crate) const TRAILER_BYTES: usize = 14;

// The two bytes that end a file.
pub(crate) const MARK: [u8; 2] = [0x46, 0x36];

impl Cursor<'_> {
    // The record of a sample.
    pub(crate) fn put_sample(&mut self, slot: u8, leaf: u16, sample: &Sample)
        requires { 20 ≤ left self.old }
        ensures { Adds self.old self.new (sample_record slot sample.now.fibre leaf (entries sample.now.reading.values)) }
    {
        self.put(&[slot, sample.fibre()]);
        self.put_u16(leaf);
        self.put_row(sample.values());
    }

    // The record of a node.
    pub(crate) fn put_node(&mut self, node: &Node)
        requires { 38 ≤ left self.old }
        ensures { Adds self.old self.new (node_record (node_of node.now) (entries node.now.counts)) }
    {
        let (first, second) = node.kind.children().unwrap_or((0, 0));
        self.put(&[kind_byte(node.kind), node.bounds.depth()]);
        self.put_u16(first);
        self.put_u16(second);
        self.put_row(node.bounds.corner());
        self.put_row(&node.counts);
    }

    // The trailer.
    pub(crate) fn put_trailer(&mut self, outline: Outline)
        requires { 14 ≤ left self.old }
        ensures { Adds self.old self.new (trailer_bytes outline.samples outline.nodes) }
    {
        self.put_u16(outline.samples);
        self.put_u16(outline.nodes);
        self.put(&outline.back_to_nodes().to_le_bytes());
        self.put(&outline.back_to_samples().to_le_bytes());
        self.put(&MARK);
    }
}

// The byte by which the format tells a kind. A kind is another crate's, and so is u8: no `From` can stand here.
fn kind_byte(kind: Kind) -> u8
    ensures { result ≡ kind_code (kind_of kind) }
{
    match kind {
        Kind::Leaf => 0,
        Kind::Split { .. } => 1,
        Kind::Shrink { .. } => 2,
    }
}
