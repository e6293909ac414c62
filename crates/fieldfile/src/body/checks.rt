// The checks of the records of samples, and of the counts of nodes, in a file that is laid out.
ghost use Rattle.std.specs.Prelude.{◌≡◌, ℕ, ◌-◌, ◌<◌, ◌==◌, not, nat_eq};
ghost use Rattle.boxes.specs.Views.{entries};
ghost use Rattle.ranking.specs.Lowest.{lowest};
ghost use Rattle.trees.specs.Boxes.{every};
ghost use Rattle.field.specs.Fields.{node_count, tree, counts};
ghost use Rattle.records.specs.Checks.{bad_sample};
ghost use Rattle.records.specs.Readings.{counts_in};
ghost use Rattle.fieldfile.specs.Bodies.{named_leaf, same_counts};
ghost use Rattle.fieldfile.specs.Faults.{blame};

use super::Body;
use crate::faults::{Check, Fault};
use crate::numbers::row_at;
use field::Field;
use ranking::CODES;
use samples::Sample;

impl Body<'_> {
    // The samples by themselves: fibres, values and rising slots.
    pub(crate) fn check_samples(&self) -> Result<(), Fault>
        ensures { result ≡ blame Check.Sample (lowest (bad_sample self.now.file.now) self.now.outline.samples) }
    {
        let lowest = (0..self.outline.samples).find(|&i| self.is_bad_sample(i));
        Check::Sample.passes_unless(lowest)
    }

    // The leaf that each sample names, in the tree of a field.
    pub(crate) fn check_leaves(&self, field: &Field) -> Result<(), Fault>
        ensures { result ≡ blame Check.Leaf (lowest (λ i. not (named_leaf self.now.file.now field.now i)) self.now.outline.samples) }
    {
        let lowest = (0..self.outline.samples).find(|&i| !self.names_leaf(field, i));
        Check::Leaf.passes_unless(lowest)
    }

    // The counts of each node, in a field that holds the samples.
    pub(crate) fn check_counts(&self, field: &Field) -> Result<(), Fault>
        requires { node_count field.now ≡ self.now.outline.nodes }
        ensures { result ≡ blame Check.Counts (lowest (λ x. not (same_counts self.now.file.now field.now x)) self.now.outline.nodes) }
    {
        let lowest = (0..self.outline.nodes).find(|&x| !self.counts_as(field, x));
        Check::Counts.passes_unless(lowest)
    }

    // Whether sample record i is out of range, or its slot is not above that of the record before.
    fn is_bad_sample(&self, i: u16) -> bool
        requires { i < self.now.outline.samples }
        ensures { result ≡ bad_sample self.now.file.now i }
    {
        let entry = self.entry(i);
        if Sample::new(u16::from(entry.fibre), &entry.values).is_err() {
            return true;
        }
        i > 0 && entry.slot <= self.entry(i - 1).slot
    }

    // Whether sample record i names the leaf in which its values belong.
    fn names_leaf(&self, field: &Field, i: u16) -> bool
        requires { i < self.now.outline.samples }
        ensures { result ≡ named_leaf self.now.file.now field.now i }
    {
        let entry = self.entry(i);
        usize::from(entry.leaf) == field.leaf_of(&entry.values)
    }

    // Whether node record x has the counts of node x.
    fn counts_as(&self, field: &Field, x: u16) -> bool
        requires within { x < self.now.outline.nodes }
        requires nodes { node_count field.now ≡ self.now.outline.nodes }
        ensures { result ≡ same_counts self.now.file.now field.now x }
    {
        let said = row_at(self.node_bytes(x), 22);
        let counts = &field.nodes()[usize::from(x)].counts;
        (0..CODES).all(|fibre| said[fibre] == counts[fibre])
    }
}
