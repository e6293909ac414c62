// How a walk ends at a table, if it does.
ghost use Rattle.std.specs.Prelude.{◌≡◌, ℕ};
ghost use Rattle.walks.specs.Scenes.{Scene};
ghost use Rattle.walks.specs.Views.{commonest};
ghost use Rattle.walks.specs.Walk as walk;
ghost use Rattle.walks.specs.Walk.{Place, view};
ghost use Rattle.entries.specs.Ends.{ending};
ghost use Rattle.entries.specs.Shows.{Shows};
ghost use Rattle.entries.specs.Spans.{Spans};

use super::span::Span;
use super::table::Table;

// The fibre of a nearby list is found from the list.
#[derive(Clone, Copy, PartialEq, Eq, Debug)]
pub enum End {
    Going,
    Settled(u8),
    Nearby,
    Counted(u8),
}

impl Table {
    // The first test that ends the walk: for the k nearest, with a ratio of n to d.
    pub fn end(&self, span: Span, k: u16, n: u16, d: u16) -> End
        ensures { (c : Scene) (p : ℕ → Place) → c.slots ≡ 256 → Shows c p self.now.entries.items → Spans (view c p) k span → ending result (commonest (view c p) k) ≡ walk.end c k n d p }
    {
        let poll = self.poll(span, k);
        if let Some(fibre) = poll.settled() {
            return End::Settled(fibre);
        }
        if n > d && self.is_narrow(span, n, d) {
            return End::Nearby;
        }
        if !self.is_counted(span) {
            return End::Going;
        }
        End::Counted(self.counted(span, poll.left))
    }
}
