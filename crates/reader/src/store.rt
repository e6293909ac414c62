// The field of a reader, with the room for a walk over it.
ghost use Rattle.std.specs.Prelude.{◌≡◌, ◌+◌, ◌≤◌};
ghost use Rattle.samples.specs.Verdict.{samples};
ghost use Rattle.field.specs.Fields.{holds};
ghost use Rattle.walks.specs.Walk.{going};
ghost use Rattle.walk.specs.Asked.{asked_of};
ghost use Rattle.walk.specs.Lists.{end_of};
ghost use Rattle.walk.specs.Stands.{Stands};

use field::Field;
use measure::Measure;
use walk::{Question, Walk};

// The walk of no query says nothing.
#[derive(Drop)]
pub(crate) struct Store {
    pub(crate) field: Field,
    pub(crate) walk: Walk,
}

impl Store {
    // Begins the walk of a question.
    pub(crate) fn open<M: Measure>(&mut self, measure: &M, question: &Question)
        requires { question.now.k ≤ samples (holds self.old.field) }
        ensures field { self.new.field ≡ self.old.field }
        ensures stands { Stands (M.weighed measure.now) (M.joined measure.now) self.old.field (asked_of question.now) self.new.walk }
        ensures steps { self.new.walk.steps ≡ 0 }
    {
        self.walk.open(measure, &self.field, question);
    }

    // Goes one step on.
    pub(crate) fn step<M: Measure>(&mut self, measure: &M, question: &Question)
        requires enough { question.now.k ≤ samples (holds self.old.field) }
        requires stands { Stands (M.weighed measure.now) (M.joined measure.now) self.old.field (asked_of question.now) self.old.walk }
        requires going { end_of self.old.walk.end ≡ going }
        ensures field { self.new.field ≡ self.old.field }
        ensures stands { Stands (M.weighed measure.now) (M.joined measure.now) self.old.field (asked_of question.now) self.new.walk }
        ensures steps { self.new.walk.steps ≡ self.old.walk.steps + 1 }
    {
        self.walk.step(measure, &self.field, question);
    }
}
