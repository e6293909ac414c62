// The bounds of boxes: how near to a reading, and how far from it, what a box covers may be.
#![tactic(auto)]

ghost use Rattle.std.specs.Prelude.{◌≡◌, ℕ, ◌<◌, List, slice_index};
ghost use Rattle.trees.specs.Boxes.{side};
ghost use Rattle.boxes.specs.Views.{box_of};
ghost use Rattle.bounding.specs.Distances.{gap_to, reach_to, last, near_gap, far_gap, near_of, far_of, Between};
ghost use Rattle.bounding.specs.Fields.{scene_of, belongs_in};
ghost use Rattle.walks.specs.Scenes.{Fair};

use boxes::Bounds;
use field::Field;
use measure::{BANDS, Measure, join_gaps};
use std::array;

// The least that what the box covers can weigh against the reading.
pub fn near<M: Measure>(measure: &M, bounds: &Bounds, reading: &[u16; BANDS]) -> u32
    ensures value { result ≡ near_of (M.weighed measure.now) (M.joined measure.now) (box_of bounds.now) reading.now }
    ensures between { Between (M.weighed measure.now) (M.joined measure.now) (box_of bounds.now) reading.now }
{
    join_gaps(measure, &near_gaps(bounds, reading))
}

// The most that what the box covers can weigh against the reading.
pub fn far<M: Measure>(measure: &M, bounds: &Bounds, reading: &[u16; BANDS]) -> u32
    ensures { result ≡ far_of (M.weighed measure.now) (M.joined measure.now) (box_of bounds.now) reading.now }
{
    join_gaps(measure, &far_gaps(bounds, reading))
}

// The gap to the box in each band.
fn near_gaps(bounds: &Bounds, reading: &[u16; BANDS]) -> [u16; BANDS]
    ensures { (b : ℕ) → b < 8 → slice_index result b ≡ near_gap (box_of bounds.now) reading.now b }
{
    let (first, last) = (bounds.corner(), lasts(bounds));
    array::from_fn(|band| gap_to(first[band], last[band], reading[band]))
}

// The larger distance to the two ends of the box in each band.
fn far_gaps(bounds: &Bounds, reading: &[u16; BANDS]) -> [u16; BANDS]
    ensures { (b : ℕ) → b < 8 → slice_index result b ≡ far_gap (box_of bounds.now) reading.now b }
{
    let (first, last) = (bounds.corner(), lasts(bounds));
    array::from_fn(|band| reach_to(first[band], last[band], reading[band]))
}

// The gap from a value to those from `first` to `last`.
fn gap_to(first: u16, last: u16, value: u16) -> u16
    ensures { result ≡ gap_to first last value }
{
    first.saturating_sub(value) + value.saturating_sub(last)
}

// The larger distance from a value to `first` and `last`.
fn reach_to(first: u16, last: u16, value: u16) -> u16
    ensures { result ≡ reach_to first last value }
{
    value.abs_diff(first).max(value.abs_diff(last))
}

// The highest value that the box covers in each band.
fn lasts(bounds: &Bounds) -> [u16; BANDS]
    ensures { (b : ℕ) → b < 8 → slice_index result b ≡ last (box_of bounds.now) b }
{
    let sides = bounds.sides();
    array::from_fn(|band| last_at(bounds, &sides, band))
}

// The highest value that the box, of these sides, covers in this band.
fn last_at(bounds: &Bounds, sides: &[u16; BANDS], band: usize) -> u16
    requires band { band < 8 }
    requires sides { (b : ℕ) → b < 8 → slice_index sides.now b ≡ side bounds.now.depth b }
    ensures { result ≡ last (box_of bounds.now) band }
{
    bounds.corner()[band] + (sides[band] - 1)
}

// Holds no code: its contract says that a walk over a field goes through a fair scene, whatever was called before.
pub fn scene_fair<M: Measure>(measure: &M, field: &Field)
    ensures { (r : List ℕ) → Fair (scene_of (M.weighed measure.now) (M.joined measure.now) field.now r) (belongs_in field.now) }
{}
