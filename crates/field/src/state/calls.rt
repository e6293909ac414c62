// What a field can be asked and told.
ghost use Rattle.std.specs.Prelude.{◌≡◌, ℕ, ◌-◌, ◌<◌, length, replicate, None, is_ok, MatchResult};
ghost use Rattle.arrayvec.specs.ArrayVec.{array_vec_len};
ghost use Rattle.boxes.specs.Views.{entries, node_at, counts_at};
ghost use Rattle.std.specs.Option.{option_map};
ghost use Rattle.samples.specs.Slots.{at, point, fibre_at, values_at, admit_rule, withdraw_rule};
ghost use Rattle.trees.specs.Lawful.{lawful};
ghost use Rattle.trees.specs.Samples.{raised, lowered};
ghost use Rattle.trees.specs.Trees.{reached};
ghost use Rattle.field.specs.Fields.{holds, node_count, tree, Bare, Drawn, Recounts};
ghost use Rattle.field.specs.Flaws.{flaw, Planted};

use super::Field;
use crate::flaws::{Flaw, flaw_of};
use crate::path::{leaf_of, recount};
use arrayvec::ArrayVec;
use boxes::Node;
use drawing::{MAX_NODES, draw};
use measure::BANDS;
use ranking::CODES;
use samples::{Refusal, Sample, Slots};

impl Field {
    // A field that holds nothing: its tree is one leaf.
    pub fn new() -> Field
        ensures samples { holds result ≡ replicate 256 None }
        ensures tree { Bare result }
    {
        let slots = Slots::new();
        let mut nodes = ArrayVec::new();
        draw(&slots, &mut nodes);
        Field { slots, nodes }
    }

    // A field that holds nothing and whose tree has these nodes, if they keep the rules of a tree. What they count is not read.
    pub fn with_tree(mut nodes: ArrayVec<Node, MAX_NODES>) -> Result<Field, Flaw>
        ensures test { is_ok result ≡ lawful (array_vec_len nodes) (node_at nodes.items) }
        ensures value { MatchResult result (Planted nodes.items) (λ e. flaw (array_vec_len nodes) (node_at nodes.items) ≡ Some e) }
    {
        if let Some(flaw) = flaw_of(nodes.as_slice()) {
            return Err(flaw);
        }
        clear(nodes.as_mut_slice());
        Ok(Field {
            slots: Slots::new(),
            nodes,
        })
    }

    // Draws the tree over the samples held.
    pub fn rebuild(&mut self)
        ensures samples { holds self.new ≡ holds self.old }
        ensures tree { Drawn self.new }
    {
        draw(&self.slots, &mut self.nodes);
    }

    // The nodes of the tree.
    pub fn nodes(&self) -> &[Node]
        ensures tree { result.now ≡ self.now.nodes.items }
        ensures len { length result.now ≡ node_count self.now }
    {
        self.nodes.as_slice()
    }

    // The samples held.
    pub fn slots(&self) -> &Slots
        ensures { result.now ≡ self.now.slots }
    {
        &self.slots
    }

    // The number of the leaf in which values belong.
    pub fn leaf_of(&self, values: &[u16; BANDS]) -> usize
        ensures { result ≡ reached (tree self.now) (entries values.now) (node_count self.now - 1) }
    {
        leaf_of(self.nodes(), values)
    }

    // Puts a sample into an empty slot and counts it along its path. No box changes. It is told by numbers that may be out of
    // range: that is what is refused.
    pub fn admit(&mut self, slot: u16, fibre: u16, values: &[u16; BANDS]) -> Result<(), Refusal>
        ensures samples { (holds self.new, result) ≡ admit_rule (holds self.old) slot fibre values.now }
        ensures tree { Recounts raised fibre (entries values.now) self.old self.new result }
    {
        let sample = Sample::new(fibre, values)?;
        self.slots.admit(slot, fibre, values)?;
        let nodes = self.nodes.as_mut_slice();
        recount(nodes, &sample, |count| count + 1);
        Ok(())
    }

    // Empties a slot that holds a sample and takes it off the counts on its path. No box changes.
    pub fn withdraw(&mut self, slot: u16) -> Result<(), Refusal>
        ensures samples { (holds self.new, result) ≡ withdraw_rule (holds self.old) slot }
        ensures tree { Recounts lowered (fibre_at (holds self.old) slot) (entries (values_at (holds self.old) slot)) self.old self.new result }
    {
        let held = self.sample(slot);
        self.slots.withdraw(slot)?;
        if let Some(sample) = held {
            let nodes = self.nodes.as_mut_slice();
            recount(nodes, &sample, |count| count.saturating_sub(1));
        }
        Ok(())
    }

    // The sample in a slot, if there is one.
    pub fn sample(&self, slot: u16) -> Option<Sample>
        ensures { option_map point result ≡ at (holds self.now) slot }
    {
        let slot = u8::try_from(slot).ok()?;
        self.slots.get(slot).copied()
    }
}

// Counts no sample at any node.
fn clear(nodes: &mut [Node])
    ensures shape { (x : ℕ) → node_at nodes.new x ≡ node_at nodes.old x }
    ensures counts { (x g : ℕ) → x < length nodes.old → g < 8 → counts_at nodes.new x g ≡ 0 }
{
    for node in nodes {
        node.counts = [0; CODES];
    }
}

// A field that holds nothing.
impl Default for Field {
    ghost is_default = { λ f. (holds f ≡ replicate 256 None) × Bare f };

    fn default() -> Field {
        Field::new()
    }
}
