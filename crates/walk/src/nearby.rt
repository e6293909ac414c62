// The list of a walk that ends nearby.
ghost use Rattle.std.specs.Prelude.{◌≡◌, ℕ, ◌≤◌};
ghost use Rattle.bounding.specs.Fields.{belongs_in};
ghost use Rattle.entries.specs.Shows.{Shows};
ghost use Rattle.entries.specs.Spans.{Spans};
ghost use Rattle.field.specs.Fields.{holds};
ghost use Rattle.samples.specs.Verdict.{samples};
ghost use Rattle.walks.specs.Walk.{walk, view};
ghost use Rattle.walk.specs.Inquiries.{scene_in};
ghost use Rattle.walk.specs.Lists.{Lists, Concludes};
ghost use Rattle.walk.specs.Places.{Placed};

use super::inquiry::Inquiry;
use super::moment::Moment;
use super::walk::End;
use entries::{Span, Table};
use measure::Measure;
use samples::SLOTS;

// How many places a list has at most.
pub(crate) const MAX_LIST: usize = 32;

// The slots of the list in the order of nearness, and the most common fibre among their samples.
#[derive(Clone, Copy)]
pub(crate) struct List {
    pub(crate) slots: [u8; MAX_LIST],
    pub(crate) fibre: u8,
}

// How a walk stands, and its list where it ends nearby.
#[derive(Clone, Copy)]
pub(crate) struct Conclusion {
    pub(crate) end: End,
    pub(crate) list: [u8; MAX_LIST],
}

impl<M: Measure> Inquiry<'_, M> {
    // What follows from how the table ends.
    pub(crate) fn conclude(
        &self,
        table: &Table,
        places: &[u16; SLOTS],
        span: Span,
        end: entries::End,
    ) -> Conclusion
        requires { self.now.question.now.k ≤ samples (holds self.now.field.now) }
        ensures { (i : ℕ) → Shows (scene_in M.weighed M.joined self.now) (walk (scene_in M.weighed M.joined self.now) self.now.question.now.k i) table.now.entries.items → Placed (scene_in M.weighed M.joined self.now) (belongs_in self.now.field.now) (walk (scene_in M.weighed M.joined self.now) self.now.question.now.k i) places.now → Spans (view (scene_in M.weighed M.joined self.now) (walk (scene_in M.weighed M.joined self.now) self.now.question.now.k i)) self.now.question.now.k span → Concludes (view (scene_in M.weighed M.joined self.now) (walk (scene_in M.weighed M.joined self.now) self.now.question.now.k i)) self.now.question.now.k end result }
    {
        let end = match end {
            entries::End::Going => End::Going,
            entries::End::Settled(fibre) => End::Settled(fibre),
            entries::End::Counted(fibre) => End::Counted(fibre),
            entries::End::Nearby => {
                let List { slots, fibre } = self.list(table, places, span);
                return Conclusion {
                    end: End::Nearby(fibre),
                    list: slots,
                };
            }
        };
        let list = [0; MAX_LIST];
        Conclusion { end, list }
    }

    // The inside samples, and the first of the active ones by near and slot.
    fn list(&self, table: &Table, places: &[u16; SLOTS], span: Span) -> List
        requires { self.now.question.now.k ≤ samples (holds self.now.field.now) }
        ensures { (i : ℕ) → Shows (scene_in M.weighed M.joined self.now) (walk (scene_in M.weighed M.joined self.now) self.now.question.now.k i) table.now.entries.items → Placed (scene_in M.weighed M.joined self.now) (belongs_in self.now.field.now) (walk (scene_in M.weighed M.joined self.now) self.now.question.now.k i) places.now → Spans (view (scene_in M.weighed M.joined self.now) (walk (scene_in M.weighed M.joined self.now) self.now.question.now.k i)) self.now.question.now.k span → Lists (view (scene_in M.weighed M.joined self.now) (walk (scene_in M.weighed M.joined self.now) self.now.question.now.k i)) self.now.question.now.k result }
    {
        let moment = Moment {
            measure: self.measure,
            field: self.field,
            question: self.question,
            table,
            places,
            span,
        };
        moment.list()
    }
}
