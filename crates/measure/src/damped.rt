// The damped measure: a gap weighs the root of 1024 times it, by a table that ends at gap 1023.
ghost use Rattle.std.specs.Prelude.{◌≡◌, ℕ, ◌*◌, ◌<◌, min};
ghost use Rattle.measure.specs.Roots.{Largest, Roots, root};
ghost use Rattle.std.proofs.Common.{arith};
ghost use Rattle.measure.specs.Rooted.{root_rises};

use super::Additive;
use super::roots::{ENTRIES, ROOTS};

// The last gap that the table tells apart.
const LAST: u16 = 1023;

// The root of 1024 times the gap, rounded down; weights add.
#[derive(Clone, Copy)]
pub struct Damped;

// The largest t with t * t at most 1024 times the gap, which counts as 1023 where it is more.
pub fn damped_weight(gap: u16) -> u16
    ensures value { result ≡ root (1024 * min gap 1023) }
    ensures largest { Largest (1024 * min gap 1023) result }
{
    entry(&ROOTS, gap.min(LAST))
}

// The rule of a whole table, read at one entry.
fn entry(table: &[u16; ENTRIES], gap: u16) -> u16
    requires within { gap < 1024 }
    requires roots { Roots table.now }
    ensures { result ≡ root (1024 * gap) }
{
    table[usize::from(gap)]
}

impl Additive for Damped {
    ghost weight = { λ g. root (1024 * min g 1023) };

    ghost rises = { λ g h le. root_rises _ _ (omega arith) };

    fn weight(gap: u16) -> u32 {
        u32::from(damped_weight(gap))
    }
}
