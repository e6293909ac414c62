// The votes of a table: how many samples of each fibre are inside and active, and what they settle.
ghost use Rattle.std.specs.Prelude.{◌≡◌, ℕ, ◌<◌};
ghost use Rattle.walks.specs.Scenes.{Scene};
ghost use Rattle.walks.specs.Views.{View, sure, most, is_settled};
ghost use Rattle.walks.specs.Walk.{Place, view};
ghost use Rattle.entries.specs.Polls.{Polled, Settles};
ghost use Rattle.entries.specs.Shows.{Shows};
ghost use Rattle.entries.specs.Spans.{Spans};

use super::part::Part;
use super::span::Span;
use super::table::Table;
use ranking::CODES;

// What is left of k is how many of the k nearest are among the active samples.
#[derive(Clone, Copy)]
pub(crate) struct Poll {
    pub(crate) inside: [u32; CODES],
    active: [u32; CODES],
    all_active: u32,
    pub(crate) left: u32,
}

impl Table {
    // The votes for the k nearest.
    pub(crate) fn poll(&self, span: Span, k: u16) -> Poll
        ensures { (c : Scene) (p : ℕ → Place) → Shows c p self.now.entries.items → Spans (view c p) k span → Polled (view c p) k result }
    {
        let inside = Part::Inside(span);
        let active = Part::Active(span);
        Poll {
            inside: self.votes_by_fibre(inside),
            active: self.votes_by_fibre(active),
            all_active: self.size(active),
            left: u32::from(k).saturating_sub(self.size(inside)),
        }
    }
}

impl Poll {
    // The fibre that is settled. At most one is.
    pub(crate) fn settled(&self) -> Option<u8>
        ensures { (v : View) (k : ℕ) → Polled v k self.now → Settles v k result }
    {
        (0..CODES as u8)
            .filter(|&fibre| self.is_settled(fibre))
            .last()
    }

    // Whether a fibre has more votes than any lower code can get, and at least as many as any higher one.
    fn is_settled(&self, fibre: u8) -> bool
        requires { fibre < 8 }
        ensures { (v : View) (k : ℕ) → Polled v k self.now → result ≡ is_settled v k fibre }
    {
        let sure = self.sure(fibre);
        (0..CODES as u8).all(|other| {
            let most = self.most(other);
            other == fibre || most < sure || other > fibre && most == sure
        })
    }

    // How many votes a fibre has at least.
    fn sure(&self, fibre: u8) -> u64
        requires { fibre < 8 }
        ensures { (v : View) (k : ℕ) → Polled v k self.now → result ≡ sure v k fibre }
    {
        let fibre = usize::from(fibre);
        let others = self.all_active.saturating_sub(self.active[fibre]);
        u64::from(self.inside[fibre]) + u64::from(self.left.saturating_sub(others))
    }

    // How many votes a fibre has at most.
    fn most(&self, fibre: u8) -> u64
        requires { fibre < 8 }
        ensures { (v : View) (k : ℕ) → Polled v k self.now → result ≡ most v k fibre }
    {
        let fibre = usize::from(fibre);
        u64::from(self.inside[fibre]) + u64::from(self.left.min(self.active[fibre]))
    }
}
