// What a box does: its sides, what it covers, its halves, and whether it lies in another.
ghost use Rattle.std.specs.Prelude.{◌≡◌, ℕ, ◌+◌, ◌<◌, ◌≤◌, is_some, IfSome, Decides, nat_lt, slice_index};
ghost use Rattle.trees.specs.Boxes.{side, covers, Inside, everything};
ghost use Rattle.boxes.specs.Grids.{gridded};
ghost use Rattle.boxes.specs.Views.{box_of, entries, Halved};

use super::{Bounds, MAX_DEPTH};
use measure::BANDS;
use std::array;
use std::ops::Range;

// How many values a band has.
const VALUES: u16 = 1024;

impl Bounds {
    // The box of this depth and corner, if it is on the grid.
    pub fn new(depth: u8, corner: &[u16; BANDS]) -> Option<Bounds>
        ensures test { is_some result ≡ gridded depth corner.now }
        ensures value { IfSome result (λ x. (x.depth ≡ depth) × (x.corner ≡ corner.now)) }
    {
        if !is_on_grid(depth, corner) {
            return None;
        }
        Some(Bounds {
            depth,
            corner: *corner,
        })
    }

    // The box of all values.
    pub fn everything() -> Bounds
        ensures { box_of result ≡ everything }
    {
        Bounds {
            depth: 0,
            corner: [0; BANDS],
        }
    }

    // How many values the box covers in each band.
    pub fn sides(&self) -> [u16; BANDS]
        ensures value { (b : ℕ) → b < 8 → slice_index result b ≡ side self.now.depth b }
        ensures deepest { self.now.depth ≡ 80 → (b : ℕ) → b < 8 → slice_index result b ≡ 1 }
    {
        array::from_fn(|band| side_at(self.depth(), band))
    }

    // Whether the box covers the values in every band.
    pub fn covers(&self, values: &[u16; BANDS]) -> bool
        ensures { result ≡ covers (box_of self.now) (entries values.now) }
    {
        values
            .iter()
            .enumerate()
            .all(|(band, value)| self.extent(band).contains(value))
    }

    // The lower and the upper half of the box, which a box of the largest depth does not have.
    pub fn halves(&self) -> Option<(Bounds, Bounds)>
        ensures test { is_some result ≡ nat_lt self.now.depth 80 }
        ensures value { IfSome result (λ x. Halved (box_of self.now) (box_of x.0) (box_of x.1)) }
    {
        if self.depth >= MAX_DEPTH {
            return None;
        }
        let depth = self.depth + 1;
        let cut = self.depth as usize % BANDS;
        let mut corner = self.corner;
        corner[cut] += side_at(depth, cut);
        let lower = Bounds {
            depth,
            corner: self.corner,
        };
        let upper = Bounds { depth, corner };
        Some((lower, upper))
    }

    // Whether the box is deeper than `outer` and lies in it.
    pub fn inside(&self, outer: &Bounds) -> bool
        ensures { Decides result (Inside (box_of self.now) (box_of outer.now)) }
    {
        self.depth > outer.depth
            && (0..BANDS).all(|band| {
                let (inner, outer) = (self.extent(band), outer.extent(band));
                outer.start <= inner.start && inner.end <= outer.end
            })
    }

    // The values that the box covers in this band.
    fn extent(&self, band: usize) -> Range<u16>
        requires { band < 8 }
        ensures start { result.start ≡ slice_index self.now.corner band }
        ensures end { result.end ≡ slice_index self.now.corner band + side self.now.depth band }
    {
        let start = self.corner[band];
        start..start + side_at(self.depth(), band)
    }
}

// The box of all values.
impl Default for Bounds {
    ghost is_default = { λ k. box_of k ≡ everything };

    fn default() -> Bounds {
        Bounds::everything()
    }
}

// Whether a box of this depth may have this corner.
fn is_on_grid(depth: u8, corner: &[u16; BANDS]) -> bool
    ensures { result ≡ gridded depth corner.now }
{
    depth <= MAX_DEPTH
        && corner.iter().enumerate().all(|(band, &value)| {
            value < VALUES && value.is_multiple_of(side_at(depth, band))
        })
}

// How many values a box of this depth covers in this band.
fn side_at(depth: u8, band: usize) -> u16
    requires depth { depth ≤ 80 }
    requires band { band < 8 }
    ensures { result ≡ side depth band }
{
    let halvings = (depth as usize + (BANDS - 1 - band)) / BANDS;
    VALUES >> halvings
}
