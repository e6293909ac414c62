// How many of the k nearest are not inside.
ghost use Rattle.std.specs.Prelude.{◌≡◌, ℕ};
ghost use Rattle.walks.specs.Scenes.{Scene};
ghost use Rattle.walks.specs.Views.{left};
ghost use Rattle.walks.specs.Walk.{Place, view};
ghost use Rattle.entries.specs.Shows.{Shows};
ghost use Rattle.entries.specs.Spans.{Spans};

use super::span::Span;
use super::table::Table;

impl Table {
    // How many of the k nearest are among the active samples.
    pub fn left(&self, span: Span, k: u16) -> u32
        ensures { (c : Scene) (p : ℕ → Place) → Shows c p self.now.entries.items → Spans (view c p) k span → result ≡ left (view c p) k }
    {
        self.poll(span, k).left
    }
}
