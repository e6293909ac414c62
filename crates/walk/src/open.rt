// Opening a node: its entry leaves the table, and those of its children come, or those of its samples.
ghost use Rattle.std.specs.Prelude.{suc, ◌≤◌, length, ◌≡◌, ℕ, ◌+◌, ◌<◌, true, slice_index};
ghost use Rattle.boxes.specs.Views.{entries};
ghost use Rattle.bounding.specs.Fields.{belongs_in};
ghost use Rattle.entries.specs.Shows.{Shows};
ghost use Rattle.field.specs.Fields.{holds, node_count, tree};
ghost use Rattle.samples.specs.Slots.{held, values_at};
ghost use Rattle.trees.specs.Trees.{parts, choice};
ghost use Rattle.walks.specs.Walk.{Place, is_within};
ghost use Rattle.walk.specs.Inquiries.{scene_in};
ghost use Rattle.walk.specs.Places.{leaving, entering, singled, Placed, StandIn, Vacant, moved_place};
ghost use Rattle.samples.specs.Verdict.{samples};
ghost use Rattle.walk.specs.Stands.{undropped, Opening};

use super::inquiry::Inquiry;
use entries::Table;
use measure::Measure;
use samples::SLOTS;

impl<M: Measure> Inquiry<'_, M> {
    // Opens the node whose entry stands at `at`.
    pub(crate) fn open_node(
        &self,
        table: &mut Table,
        places: &mut [u16; SLOTS],
        at: usize,
        number: u16,
    )
        requires within { at < length table.old.entries.items }
        requires number { number < node_count self.now.field.now }
        requires enough { self.now.question.now.k ≤ samples (holds self.now.field.now) }
        ensures shows { (i : ℕ) → Opening (scene_in M.weighed M.joined self.now) (belongs_in self.now.field.now) self.now.question.now.k i at number table.old.entries.items places.old → Shows (scene_in M.weighed M.joined self.now) (undropped (scene_in M.weighed M.joined self.now) self.now.question.now.k (suc i)) table.new.entries.items }
        ensures placed { (i : ℕ) → Opening (scene_in M.weighed M.joined self.now) (belongs_in self.now.field.now) self.now.question.now.k i at number table.old.entries.items places.old → Placed (scene_in M.weighed M.joined self.now) (belongs_in self.now.field.now) (undropped (scene_in M.weighed M.joined self.now) self.now.question.now.k (suc i)) places.new }
    {
        table.entries.swap_remove(at);
        match self.field.nodes()[usize::from(number)].kind.children() {
            None => self.enter_samples(table, places, number),
            Some((first, second)) => {
                self.enter_node(table, first);
                self.enter_node(table, second);
                self.move_samples(places, number);
            }
        }
    }

    // Puts the entry of a node into the table, if samples are at or below it. The table has room for it.
    pub(crate) fn enter_node(&self, table: &mut Table, number: u16)
        requires { number < node_count self.now.field.now }
        ensures { (p : ℕ → Place) → Shows (scene_in M.weighed M.joined self.now) p table.old.entries.items → Vacant (scene_in M.weighed M.joined self.now) (belongs_in self.now.field.now) number p → Shows (scene_in M.weighed M.joined self.now) (entering (scene_in M.weighed M.joined self.now) (belongs_in self.now.field.now) number p) table.new.entries.items }
    {
        if let Some(entry) = self.node_entry(number) {
            let _ = table.entries.try_push(entry);
        }
    }

    // Puts the entries of the samples of a leaf into the table, by the node that each slot's sample stands in.
    pub(crate) fn enter_samples(&self, table: &mut Table, places: &[u16; SLOTS], number: u16)
        ensures { (p : ℕ → Place) → Shows (scene_in M.weighed M.joined self.now) (leaving (scene_in M.weighed M.joined self.now) number p) table.old.entries.items → StandIn (scene_in M.weighed M.joined self.now) number p places.now → Shows (scene_in M.weighed M.joined self.now) (singled (scene_in M.weighed M.joined self.now) 256 number p) table.new.entries.items }
    {
        for slot in 0..=u8::MAX {
            self.enter_sample(table, slot, places[usize::from(slot)] == number);
        }
    }

    // Puts the entry of the sample in a slot into the table, if there is one and it is asked for.
    fn enter_sample(&self, table: &mut Table, slot: u8, asked: bool)
        ensures { (x : ℕ) (p : ℕ → Place) → Shows (scene_in M.weighed M.joined self.now) (singled (scene_in M.weighed M.joined self.now) slot x p) table.old.entries.items → (held (holds self.now.field.now) slot ≡ true → asked ≡ is_within (p slot) x) → Shows (scene_in M.weighed M.joined self.now) (singled (scene_in M.weighed M.joined self.now) (slot + 1) x p) table.new.entries.items }
    {
        if let Some(sample) = self.field.slots().get(slot) {
            if asked {
                let _ = table.entries.try_push(self.sample_entry(slot, sample));
            }
        }
    }

    // Moves the samples that stand in a node to the child in which each belongs.
    pub(crate) fn move_samples(&self, places: &mut [u16; SLOTS], number: u16)
        requires { number < node_count self.now.field.now }
        ensures { (s : ℕ) → s < 256 → slice_index places.new s ≡ moved_place (holds self.now.field.now) (tree self.now.field.now) number s (slice_index places.old s) }
    {
        for (slot, place) in places.iter_mut().enumerate() {
            *place = self.place_after(slot as u16, *place, number);
        }
    }

    // The node in which the sample of a slot stands once this node is opened.
    fn place_after(&self, slot: u16, place: u16, number: u16) -> u16
        requires { number < node_count self.now.field.now }
        ensures { result ≡ moved_place (holds self.now.field.now) (tree self.now.field.now) number slot place }
    {
        let Some((first, second)) = self.field.nodes()[usize::from(number)].kind.children() else {
            return place;
        };
        match self.field.sample(slot) {
            Some(sample) if place == number => {
                let bounds = &self.field.nodes()[usize::from(first)].bounds;
                if bounds.covers(sample.values()) {
                    first
                } else {
                    second
                }
            }
            _ => place,
        }
    }
}
