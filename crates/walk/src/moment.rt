// A walk at one moment, and the samples that are listed then.
ghost use Rattle.std.specs.Prelude.{◌≡◌, ℕ, ◌<◌, ◌≤◌, Bool, true, false, [], Some, MatchOption, min};
ghost use Rattle.std.specs.List.{All, Contains};
ghost use Rattle.field.specs.Fields.{holds};
ghost use Rattle.heap.specs.Contents.{content, room};
ghost use Rattle.heap.specs.Order.{ahead, Heaped};
ghost use Rattle.samples.specs.Candidates.{Holds, by_weight, candidate};
ghost use Rattle.samples.specs.Slots.{held, fibre_at};
ghost use Rattle.samples.specs.Verdict.{samples};
ghost use Rattle.ranking.specs.Counts.{count};
ghost use Rattle.entries.specs.Singles.{Last};
ghost use Rattle.walks.specs.Views.{active, left};
ghost use Rattle.walk.specs.Lists.{Lists};
ghost use Rattle.walk.specs.Moments.{Seen, Spotted, Found, Fills, stands_by, view_then, scene_then, weight_by, wants, wanted_by};

use super::nearby::{List, MAX_LIST};
use super::question::Question;
use entries::{Entry, Of, Span, Table};
use field::Field;
use heap::Heap;
use measure::{Measure, weight};
use ranking::{CODES, most_common};
use samples::{Candidate, SLOTS};

#[derive(Drop)]
pub(crate) struct Moment<'a, M> {
    pub(crate) measure: &'a M,
    pub(crate) field: &'a Field,
    pub(crate) question: &'a Question,
    pub(crate) table: &'a Table,
    pub(crate) places: &'a [u16; SLOTS],
    pub(crate) span: Span,
}

// The samples that are asked for: the active ones by near, or those of the list by weight, of which the active ones go as far
// as the last.
#[derive(Clone, Copy)]
enum Wanted {
    Active,
    Listed(Option<Candidate>),
}

impl<M: Measure> Moment<'_, M> {
    // The entry in which the sample of a slot stands.
    fn spot(&self, slot: u8) -> Option<Entry>
        requires { self.now.question.now.k ≤ samples (holds self.now.field.now) }
        ensures { (i : ℕ) → Seen M.weighed M.joined self.now i → Spotted (view_then M.weighed M.joined self.now i) slot result }
    {
        self.field.slots().get(slot)?;
        find(self.table, slot, self.places[usize::from(slot)])
    }

    // The candidate of a slot, if its sample is wanted.
    fn candidate(&self, wanted: Wanted, slot: u8) -> Option<Candidate>
        requires { self.now.question.now.k ≤ samples (holds self.now.field.now) }
        ensures { (i : ℕ) → Seen M.weighed M.joined self.now i → Found (weight_by wanted (view_then M.weighed M.joined self.now i)) (wants wanted (view_then M.weighed M.joined self.now i) self.now.question.now.k) slot result }
    {
        let Some(entry) = self.spot(slot) else {
            return None;
        };
        if !is_wanted(wanted, self.span, entry, slot) {
            return None;
        }
        match wanted {
            Wanted::Active => Some(Candidate {
                weight: entry.near,
                slot,
            }),
            Wanted::Listed(_) => self.weighed(slot),
        }
    }

    // The candidate of the sample in a slot, by its weight.
    fn weighed(&self, slot: u8) -> Option<Candidate>
        ensures { held (holds self.now.field.now) slot ≡ true → result ≡ Some (candidate (scene_then M.weighed M.joined self.now).weight slot) }
    {
        let Some(sample) = self.field.slots().get(slot) else {
            return None;
        };
        let weight = weight(self.measure, sample.values(), self.question.reading());
        Some(Candidate { weight, slot })
    }

    // Puts the candidates that are wanted into a heap.
    fn queue(&self, wanted: Wanted, heap: &mut Heap<'_, Candidate>)
        requires enough { self.now.question.now.k ≤ samples (holds self.now.field.now) }
        requires empty { content heap.old ≡ [] }
        requires room { 256 ≤ room heap.old }
        ensures holds { (i : ℕ) → Seen M.weighed M.joined self.now i → Holds (content heap.new) (weight_by wanted (view_then M.weighed M.joined self.now i)) (wants wanted (view_then M.weighed M.joined self.now i) self.now.question.now.k) 256 }
        ensures heaped { Heaped (ahead by_weight) (content heap.new) }
    {
        for slot in 0..=u8::MAX {
            if let Some(candidate) = self.candidate(wanted, slot) {
                let _ = heap.push(candidate);
            }
        }
    }

    // The last of the active samples that are listed.
    fn last_active(&self) -> Option<Candidate>
        requires { self.now.question.now.k ≤ samples (holds self.now.field.now) }
        ensures { (i : ℕ) → Seen M.weighed M.joined self.now i → Last (view_then M.weighed M.joined self.now i).near (active (view_then M.weighed M.joined self.now i) self.now.question.now.k) (min (left (view_then M.weighed M.joined self.now i) self.now.question.now.k) (count (active (view_then M.weighed M.joined self.now i) self.now.question.now.k) 256)) result }
    {
        let mut room = [Candidate { weight: 0, slot: 0 }; SLOTS];
        let mut heap = Heap::new(&mut room);
        self.queue(Wanted::Active, &mut heap);
        let left = self.table.left(self.span, self.question.k);
        heap.take(left as usize).last()
    }

    // The list.
    pub(crate) fn list(&self) -> List
        requires { self.now.question.now.k ≤ samples (holds self.now.field.now) }
        ensures { (i : ℕ) → Seen M.weighed M.joined self.now i → Lists (view_then M.weighed M.joined self.now i) self.now.question.now.k result }
    {
        let last = self.last_active();
        let mut room = [Candidate { weight: 0, slot: 0 }; SLOTS];
        let mut heap = Heap::new(&mut room);
        self.queue(Wanted::Listed(last), &mut heap);
        self.fill(&mut heap)
    }

    // The first k of a heap, in their order.
    fn fill(&self, heap: &mut Heap<'_, Candidate>) -> List
        requires { Heaped (ahead by_weight) (content heap.old) }
        ensures { (w : ℕ → ℕ) (p : ℕ → Bool) → Holds (content heap.old) w p 256 → self.now.question.now.k ≤ count p 256 → ((s : ℕ) → s < 256 → p s ≡ true → held (holds self.now.field.now) s ≡ true) → Fills w p (fibre_at (holds self.now.field.now)) self.now.question.now.k result }
    {
        let mut slots = [0; MAX_LIST];
        let mut votes = [0; CODES];
        for place in 0..usize::from(self.question.k) {
            if let Some(next) = heap.pop() {
                slots[place] = next.slot;
                if let Some(sample) = self.field.slots().get(next.slot) {
                    votes[usize::from(sample.fibre())] += 1;
                }
            }
        }
        List {
            slots,
            fibre: most_common(&votes),
        }
    }
}

// The entry for which the sample of a slot stands, where it is in this place.
fn find(table: &Table, slot: u8, place: u16) -> Option<Entry>
    ensures { MatchOption result (All (λ e. stands_by e.of slot place ≡ false) table.now.entries.items) (λ e. Contains table.now.entries.items e × (stands_by e.of slot place ≡ true)) }
{
    table
        .entries
        .iter()
        .find(|entry| stands(entry.of, slot, place))
        .copied()
}

// Whether the sample of a slot stands in the entry of this, if it is in this place.
fn stands(of: Of, slot: u8, place: u16) -> bool
    ensures { result ≡ stands_by of slot place }
{
    match of {
        Of::Node { number, .. } => number == place,
        Of::Sample { slot: own } => own == slot,
    }
}

// Whether the sample of a slot is wanted, which stands in this entry.
fn is_wanted(wanted: Wanted, span: Span, entry: Entry, slot: u8) -> bool
    ensures { result ≡ wanted_by wanted span entry slot }
{
    let inside = entry.far < span.low;
    match wanted {
        Wanted::Active => !inside,
        Wanted::Listed(None) => inside,
        Wanted::Listed(Some(last)) => {
            let near = Candidate {
                weight: entry.near,
                slot,
            };
            inside || near <= last
        }
    }
}
