// The nodes of a file that is laid out, and its samples admitted to a field.
ghost use Rattle.std.specs.Prelude.{◌≡◌, ℕ, ◌<◌, false, not, ◌&&◌, is_some, IfSome, replicate, None, length, slice_index, nat_le};
ghost use Rattle.boxes.specs.Views.{kind_of, links_of, node_of};
ghost use Rattle.trees.specs.Lawful.{childless};
ghost use Rattle.field.specs.Fields.{holds, node_count, tree};
ghost use Rattle.records.specs.Bytes.{two};
ghost use Rattle.records.specs.Checks.{bad_sample, bad_node};
ghost use Rattle.records.specs.Parts.{code_in, coded, node_in};
ghost use Rattle.records.specs.Readings.{tree_in, table_in};
ghost use Rattle.fieldfile.specs.Bodies.{ReadsNodes};

use super::Body;
use crate::faults::{Check, Fault};
use crate::numbers::{row_at, u16_at};
use arrayvec::ArrayVec;
use boxes::{Bounds, Kind, Node};
use drawing::MAX_NODES;
use field::Field;

impl Body<'_> {
    // The nodes, or the lowest record that by itself is none.
    pub(crate) fn nodes(&self) -> Result<ArrayVec<Node, MAX_NODES>, Fault>
        ensures { ReadsNodes self.now.file.now result }
    {
        let mut nodes = ArrayVec::new();
        for record in 0..self.outline.nodes {
            let Some(node) = self.node(record) else {
                return Err(Fault {
                    check: Check::Node,
                    record,
                });
            };
            nodes.push(node);
        }
        Ok(nodes)
    }

    // Node x, if its record is that of a node by itself.
    fn node(&self, x: u16) -> Option<Node>
        requires { x < self.now.outline.nodes }
        ensures test { is_some result ≡ not (bad_node self.now.file.now x) }
        ensures value { IfSome result (λ n. node_of n ≡ tree_in self.now.file.now x) }
    {
        let bytes = self.node_bytes(x);
        let kind = kind_in(bytes)?;
        let bounds = Bounds::new(bytes[1], &row_at(bytes, 6))?;
        // A box of depth 0 is that of all readings, since it is on the grid.
        if x == 0 && bounds.depth() > 0 {
            return None;
        }
        Some(Node {
            kind,
            bounds,
            counts: row_at(bytes, 22),
        })
    }

    // Admits the samples, record by record.
    pub(crate) fn admit_samples(&self, field: &mut Field)
        requires empty { holds field.old ≡ replicate 256 None }
        requires good { (i : ℕ) → i < self.now.outline.samples → bad_sample self.now.file.now i ≡ false }
        ensures samples { holds field.new ≡ table_in self.now.file.now }
        ensures size { node_count field.new ≡ node_count field.old }
        ensures shape { (x : ℕ) → tree field.new x ≡ tree field.old x }
    {
        for i in 0..self.outline.samples {
            let entry = self.entry(i);
            field
                .admit(u16::from(entry.slot), u16::from(entry.fibre), &entry.values)
                .unwrap();
        }
    }
}

// The kind that a node record says, with the children: none for a byte that is no kind's, and for a leaf that has a child.
fn kind_in(bytes: &[u8]) -> Option<Kind>
    requires { length bytes.now ≡ 38 }
    ensures test { is_some result ≡ (nat_le (code_in bytes.now) 2 && childless (node_in bytes.now)) }
    ensures value { IfSome result (λ k. (kind_of k ≡ coded (code_in bytes.now)) × (links_of k ≡ (two bytes.now 2, two bytes.now 4))) }
{
    match (bytes[0], u16_at(bytes, 2), u16_at(bytes, 4)) {
        (0, 0, 0) => Some(Kind::Leaf),
        (1, lower, upper) => Some(Kind::Split { lower, upper }),
        (2, core, rim) => Some(Kind::Shrink { core, rim }),
        _ => None,
    }
}
