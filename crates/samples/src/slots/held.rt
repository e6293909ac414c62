// The samples held, with their slots, in the order of slots.
ghost use Rattle.std.specs.Prelude.{◌≡◌, ◌-◌};
ghost use Rattle.std.specs.Iterator.{at_most};
ghost use Rattle.std.specs.Option.{option_map};
ghost use Rattle.samples.specs.Slots.{table, point, NextHeld};

use super::Slots;
use crate::sample::Sample;

// The samples from one slot on.
#[derive(Drop)]
pub struct Held<'a> {
    slots: &'a Slots,
    from: u16,
}

impl Slots {
    // The samples held, with their slots, in the order of slots.
    pub fn iter(&self) -> Held<'_>
        ensures slots { result.slots.now ≡ self.now }
        ensures from { result.from ≡ 0 }
    {
        Held {
            slots: self,
            from: 0,
        }
    }
}

impl<'a> Iterator for Held<'a> {
    type Item = (u8, &'a Sample);

    ghost remaining = { λ s. at_most (256 - s.from) };

    ghost next_gives = { λ s r t. NextHeld (table s.slots.now) s.from (option_map (λ x. (x.0, point x.1.now)) r) t.from × (t.slots ≡ s.slots) };

    // The first sample from here on, with its slot; none where no slot from here on holds one.
    fn next(&mut self) -> Option<(u8, &'a Sample)> {
        let from = u8::try_from(self.from).ok()?;
        let slot = (from..=u8::MAX).find(|&slot| self.slots.get(slot).is_some())?;
        self.from = u16::from(slot) + 1;
        Some((slot, self.slots.get(slot)?))
    }
}
