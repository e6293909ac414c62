// The calls of a reader at rest, and the one that opens a query.
ghost use Rattle.std.specs.Prelude.{◌≡◌, IfOk, IsOk, replicate, None};
ghost use Rattle.boxes.specs.Views.{entries};
ghost use Rattle.samples.specs.Slots.{fibre_at, values_at, admit_rule, withdraw_rule};
ghost use Rattle.trees.specs.Samples.{raised, lowered};
ghost use Rattle.field.specs.Fields.{holds, Bare, Drawn, Recounts};
ghost use Rattle.fieldfile.specs.Format.{file_of, Writes};
ghost use Rattle.records.specs.Rules.{Keeps};
ghost use Rattle.fieldfile.specs.Loads.{Loads};
ghost use Rattle.walk.specs.Questions.{ask_rule};
ghost use Rattle.reader.specs.Views.{field_in, question_in, steps_in};

use super::Reader;
use crate::query::Query;
use crate::store::Store;
use field::Field;
use fieldfile::{Fault, load, write};
use measure::{BANDS, Measure};
use samples::Refusal;
use std::alloc::{AllocError, Global};
use walk::{Walk, ask};

impl<M: Measure> Reader<M> {
    // An empty reader, whose tree is one leaf. What it needs is allocated here, and nothing after.
    pub fn new(heap: Global, measure: M) -> Result<Reader<M>, AllocError>
    where
        M: Drop,
        ensures measure { IfOk result (λ r. r.measure ≡ measure) }
        ensures samples { IfOk result (λ r. holds (field_in r) ≡ replicate 256 None) }
        ensures tree { IfOk result (λ r. Bare (field_in r)) }
    {
        let store = Store {
            field: Field::new(),
            walk: Walk::new(),
        };
        let store = Box::new(heap, store)?;
        Ok(Reader { measure, store })
    }

    // Replaces samples and tree by those of a file that keeps the rules; another is refused by its lowest fault.
    pub fn load(&mut self, file: &[u8]) -> Result<(), Fault>
        ensures field { Loads file.now (field_in self.old) (field_in self.new) result }
        ensures kept { (IsOk result → Keeps file.now) × (Keeps file.now → IsOk result) }
        ensures measure { self.new.measure ≡ self.old.measure }
    {
        load(&mut self.store.field, file)
    }

    // Writes the file of samples and tree to the front of a buffer and says how long it is.
    pub fn write(&self, out: &mut [u8]) -> Result<usize, Refusal>
        ensures { Writes (file_of (field_in self.now)) out.old out.new result }
    {
        write(&self.store.field, out)
    }

    // Puts a sample into an empty slot.
    pub fn admit(&mut self, slot: u16, fibre: u16, values: &[u16; BANDS]) -> Result<(), Refusal>
        ensures samples { (holds (field_in self.new), result) ≡ admit_rule (holds (field_in self.old)) slot fibre values.now }
        ensures tree { Recounts raised fibre (entries values.now) (field_in self.old) (field_in self.new) result }
        ensures measure { self.new.measure ≡ self.old.measure }
    {
        self.store.field.admit(slot, fibre, values)
    }

    // Empties a slot that holds a sample.
    pub fn withdraw(&mut self, slot: u16) -> Result<(), Refusal>
        ensures samples { (holds (field_in self.new), result) ≡ withdraw_rule (holds (field_in self.old)) slot }
        ensures tree { Recounts lowered (fibre_at (holds (field_in self.old)) slot) (entries (values_at (holds (field_in self.old)) slot)) (field_in self.old) (field_in self.new) result }
        ensures measure { self.new.measure ≡ self.old.measure }
    {
        self.store.field.withdraw(slot)
    }

    // Draws the tree over the samples held.
    pub fn rebuild(&mut self)
        ensures samples { holds (field_in self.new) ≡ holds (field_in self.old) }
        ensures tree { Drawn (field_in self.new) }
        ensures measure { self.new.measure ≡ self.old.measure }
    {
        self.store.field.rebuild();
    }

    // Opens a query, which holds the reader until it is closed. A question that is refused has ended at once.
    pub fn open(self, reading: &[u16; BANDS], k: u16, num: u16, den: u16) -> Query<M>
        ensures question { question_in result ≡ ask_rule (holds (field_in self)) (record { reading = reading.now; k = k; num = num; den = den }) }
        ensures steps { steps_in result ≡ 0 }
        ensures field { field_in result.reader ≡ field_in self }
        ensures measure { result.reader.measure ≡ self.measure }
    {
        let Reader { measure, mut store } = self;
        let question = ask(&store.field, reading, k, num, den);
        if let Ok(question) = &question {
            store.open(&measure, question);
        }
        Query {
            reader: Reader { measure, store },
            question,
        }
    }
}
