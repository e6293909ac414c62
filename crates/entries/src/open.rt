// The node that a walk opens next.
ghost use Rattle.std.specs.Prelude.{◌≡◌, ℕ, [], ◌≤◌};
ghost use Rattle.heap.specs.Contents.{content, room};
ghost use Rattle.heap.specs.Order.{ahead, Heaped};
ghost use Rattle.walks.specs.Scenes.{Scene};
ghost use Rattle.walks.specs.Views.{is_narrow, is_counted};
ghost use Rattle.walks.specs.Walk.{Place, view};
ghost use Rattle.entries.specs.OpenNodes.{open_node, stands_for, by_depth, Opens};
ghost use Rattle.entries.specs.Queues.{Queued};
ghost use Rattle.entries.specs.Shows.{Shows};
ghost use Rattle.entries.specs.Spans.{Spans};

use super::entry::{Entry, Of};
use super::span::Span;
use super::table::Table;
use heap::Heap;
use samples::SLOTS;

// A node that can be opened: the lower depth comes first, and of equal depths the lower number.
#[derive(Clone, Copy, PartialEq, Eq, PartialOrd, Ord)]
pub(crate) struct OpenNode {
    depth: u8,
    number: u16,
}

impl Entry {
    // The node that it stands for, if it is an active one.
    fn open_node(&self, span: Span) -> Option<OpenNode>
        ensures { result ≡ open_node span self.now }
    {
        match self.of {
            Of::Node { number, depth } if self.is_active(span) => Some(OpenNode { depth, number }),
            _ => None,
        }
    }

    // Whether it stands for the node of this number.
    fn stands_for(&self, node: u16) -> bool
        ensures { result ≡ stands_for self.now.of node }
    {
        matches!(self.of, Of::Node { number, .. } if number == node)
    }
}

impl Table {
    // Where the entry of the node stands that is opened next, and the node's number; none where no node is active.
    pub fn next_open(&self, span: Span) -> Option<(usize, u16)>
        ensures { (c : Scene) (p : ℕ → Place) (k : ℕ) → Shows c p self.now.entries.items → Spans (view c p) k span → Opens c k p self.now.entries.items result }
    {
        let mut room = [OpenNode {
            depth: 0,
            number: 0,
        }; SLOTS];
        let mut heap = Heap::new(&mut room);
        self.queue(span, &mut heap);
        let first = heap.pop()?;
        let at = self
            .entries
            .iter()
            .position(|entry| entry.stands_for(first.number))?;
        Some((at, first.number))
    }

    // Puts each active node into the heap.
    fn queue(&self, span: Span, heap: &mut Heap<'_, OpenNode>)
        requires empty { content heap.old ≡ [] }
        requires room { 256 ≤ room heap.old }
        ensures queued { Queued (open_node span) self.now.entries.items (content heap.new) }
        ensures heaped { Heaped (ahead by_depth) (content heap.new) }
    {
        for entry in self.entries.iter() {
            if let Some(node) = entry.open_node(span) {
                let _ = heap.push(node);
            }
        }
    }

    // Whether no active node's far is to its near as more than n to d.
    pub(crate) fn is_narrow(&self, span: Span, n: u16, d: u16) -> bool
        ensures { (c : Scene) (p : ℕ → Place) (k : ℕ) → Shows c p self.now.entries.items → Spans (view c p) k span → result ≡ is_narrow (view c p) k n d }
    {
        self.entries.iter().all(|entry| {
            entry.open_node(span).is_none()
                || u64::from(entry.far) * u64::from(d) <= u64::from(entry.near) * u64::from(n)
        })
    }

    // Whether no node is active.
    pub(crate) fn is_counted(&self, span: Span) -> bool
        ensures { (c : Scene) (p : ℕ → Place) (k : ℕ) → Shows c p self.now.entries.items → Spans (view c p) k span → result ≡ is_counted (view c p) k }
    {
        self.entries
            .iter()
            .all(|entry| entry.open_node(span).is_none())
    }
}
