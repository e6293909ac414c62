// A question put to a field under a measure: the entries that a walk makes of its nodes and samples.
ghost use Rattle.std.specs.Prelude.{◌≡◌, ◌<◌, Some, length, sum};
ghost use Rattle.bounding.specs.Fields.{belongs_in};
ghost use Rattle.field.specs.Fields.{holds, node_count};
ghost use Rattle.samples.specs.Slots.{at, point};
ghost use Rattle.walk.specs.Inquiries.{scene_in, Told, Single};

use super::question::Question;
use bounding::{far, near};
use entries::{Entry, Of};
use field::Field;
use measure::{Measure, weight};
use ranking::CODES;
use samples::Sample;

#[derive(Drop)]
pub(crate) struct Inquiry<'a, M> {
    pub(crate) measure: &'a M,
    pub(crate) field: &'a Field,
    pub(crate) question: &'a Question,
}

impl<M: Measure> Inquiry<'_, M> {
    // The entry of a node, if samples are at or below it.
    pub(crate) fn node_entry(&self, number: u16) -> Option<Entry>
        requires { number < node_count self.now.field.now }
        ensures { Told (scene_in M.weighed M.joined self.now) (belongs_in self.now.field.now) number result }
    {
        let node = &self.field.nodes()[usize::from(number)];
        let count = total(&node.counts) as u16;
        if count == 0 {
            return None;
        }
        let reading = self.question.reading();
        Some(Entry {
            of: Of::Node {
                number,
                depth: node.bounds.depth(),
            },
            near: near(self.measure, &node.bounds, reading),
            far: far(self.measure, &node.bounds, reading),
            count,
            fibres: node.counts,
        })
    }

    // The entry of the sample in a slot.
    pub(crate) fn sample_entry(&self, slot: u8, sample: &Sample) -> Entry
        requires { Some (point sample.now) ≡ at (holds self.now.field.now) slot }
        ensures { Single (scene_in M.weighed M.joined self.now) slot result }
    {
        let weight = weight(self.measure, sample.values(), self.question.reading());
        let mut fibres = [0; CODES];
        fibres[usize::from(sample.fibre())] = 1;
        Entry {
            of: Of::Sample { slot },
            near: weight,
            far: weight,
            count: 1,
            fibres,
        }
    }
}

// How many samples are counted in all.
fn total(counts: &[u16; CODES]) -> u32
    ensures value { result ≡ sum counts.now }
    ensures len { length counts.now ≡ 8 }
{
    let mut all = 0;
    for count in counts {
        all += u32::from(*count);
    }
    all
}
