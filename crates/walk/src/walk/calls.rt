// What a walk can be told and asked.
ghost use Rattle.std.specs.Prelude.{◌≡◌, ℕ, ◌+◌, ◌≤◌};
ghost use Rattle.bounding.specs.Fields.{belongs_in};
ghost use Rattle.entries.specs.Shows.{Shows};
ghost use Rattle.field.specs.Fields.{holds};
ghost use Rattle.samples.specs.Verdict.{samples};
ghost use Rattle.walks.specs.Walk.{walk, going};
ghost use Rattle.walk.specs.Asked.{asked_of};
ghost use Rattle.walk.specs.Inquiries.{scene_in};
ghost use Rattle.walk.specs.Lists.{end_of};
ghost use Rattle.walk.specs.Places.{Placed};
ghost use Rattle.walk.specs.Stands.{undropped, At, Stands, witnessed};

use super::{End, Walk};
use crate::inquiry::Inquiry;
use crate::nearby::{Conclusion, MAX_LIST};
use crate::question::Question;
use arrayvec::ArrayVec;
use entries::{Span, Table};
use field::Field;
use measure::Measure;
use samples::SLOTS;

impl Walk {
    // A walk that stands nowhere yet: what holds of one is said where it is opened.
    pub fn new() -> Walk {
        Walk {
            table: Table {
                entries: ArrayVec::new(),
            },
            places: [0; SLOTS],
            span: Span { low: 0, high: 0 },
            steps: 0,
            end: End::Going,
            list: [0; MAX_LIST],
        }
    }

    // Begins the walk of a question over a field: all samples stand in node 0.
    pub fn open<M: Measure>(&mut self, measure: &M, field: &Field, question: &Question)
        requires { question.now.k ≤ samples (holds field.now) }
        ensures stands { Stands (M.weighed measure.now) (M.joined measure.now) field.now (asked_of question.now) self.new }
        ensures steps { self.new.steps ≡ 0 }
    {
        let inquiry = Inquiry {
            measure,
            field,
            question,
        };
        self.table.entries.clear();
        self.places = [0; SLOTS];
        self.steps = 0;
        inquiry.enter_node(&mut self.table, 0);
        self.settle(&inquiry);
    }

    // Makes one step: a node is opened.
    pub fn step<M: Measure>(&mut self, measure: &M, field: &Field, question: &Question)
        requires enough { question.now.k ≤ samples (holds field.now) }
        requires stands { Stands (M.weighed measure.now) (M.joined measure.now) field.now (asked_of question.now) self.old }
        requires going { end_of self.old.end ≡ going }
        ensures stands { Stands (M.weighed measure.now) (M.joined measure.now) field.now (asked_of question.now) self.new }
        ensures steps { self.new.steps ≡ self.old.steps + 1 }
    {
        let inquiry = Inquiry {
            measure,
            field,
            question,
        };
        if let Some((at, number)) = self.table.next_open(self.span) {
            inquiry.open_node(&mut self.table, &mut self.places, at, number);
            self.steps += 1;
            self.settle(&inquiry);
        }
    }

    // How it has ended, if it has.
    pub fn end(&self) -> End
        ensures { result ≡ self.now.end }
    {
        self.end
    }

    // The bounds between which the k-th nearest weight lies.
    pub fn span(&self) -> (u32, u32)
        ensures low { result.0 ≡ self.now.span.low }
        ensures high { result.1 ≡ self.now.span.high }
    {
        (self.span.low, self.span.high)
    }

    // How many steps it has made.
    pub fn steps(&self) -> u16
        ensures { result ≡ self.now.steps }
    {
        self.steps
    }

    // The slot at a place of the list, where the walk has ended nearby and the list has such a place.
    pub fn witness(&self, question: &Question, place: u16) -> Option<u8>
        ensures { result ≡ witnessed self.now question.now.k place }
    {
        match self.end {
            End::Nearby(_) if place < question.k() => Some(self.list[usize::from(place)]),
            _ => None,
        }
    }

    // Finds the span, drops what lies above it, and tests for the end.
    fn settle<M: Measure>(&mut self, inquiry: &Inquiry<'_, M>)
        requires { inquiry.now.question.now.k ≤ samples (holds inquiry.now.field.now) }
        ensures stands { (i : ℕ) → Shows (scene_in M.weighed M.joined inquiry.now) (undropped (scene_in M.weighed M.joined inquiry.now) inquiry.now.question.now.k i) self.old.table.entries.items → Placed (scene_in M.weighed M.joined inquiry.now) (belongs_in inquiry.now.field.now) (undropped (scene_in M.weighed M.joined inquiry.now) inquiry.now.question.now.k i) self.old.places → At (scene_in M.weighed M.joined inquiry.now) (belongs_in inquiry.now.field.now) (asked_of inquiry.now.question.now) (walk (scene_in M.weighed M.joined inquiry.now) inquiry.now.question.now.k i) self.new }
        ensures steps { self.new.steps ≡ self.old.steps }
    {
        let question = inquiry.question;
        self.span = self.table.span(question.k);
        self.table.drop_above(self.span);
        let end = self
            .table
            .end(self.span, question.k, question.num, question.den);
        let Conclusion { end, list } = inquiry.conclude(&self.table, &self.places, self.span, end);
        self.end = end;
        self.list = list;
    }
}
