// Measures: what a gap in a band weighs and how two weights join, the laws of both, and four measures.
#![tactic(auto)]

ghost use Rattle.std.specs.Prelude.{◌≡◌, ℕ, ◌*◌, ◌<◌, ◌≤◌, max, slice_index};
ghost use Rattle.measure.specs.Weight.{held_sum, gap_at, join_to, weight_of, Monotone};
ghost use Rattle.std.proofs.Common.{rules, mul-le-mul};

use std::array;

mod damped;
mod roots;

pub use damped::{Damped, damped_weight};

// How many bands a reading has.
pub const BANDS: usize = 8;

// `weigh` is the weight of a gap in a band, `join` that of two weights together. Both answer for every input, and
// neither falls where an input grows: whatever owes these two laws serves as a measure.
pub trait Measure {
    ghost weighed: { Self → ℕ → ℕ → ℕ };

    ghost joined: { Self → ℕ → ℕ → ℕ };

    fn weigh(&self, band: u8, gap: u16) -> u32
        ensures { result ≡ weighed self.now band gap };

    fn join(&self, u: u32, v: u32) -> u32
        ensures { result ≡ joined self.now u v };

    ghost weigh_rises: { (m : Self) (b g h : ℕ) → g ≤ h → weighed m b g ≤ weighed m b h };

    ghost join_rises: { (m : Self) (u v s t : ℕ) → u ≤ s → v ≤ t → joined m u v ≤ joined m s t };
}

// What a measure owes whose weights add and that weighs a gap alike in every band: the weight of a gap.
trait Additive {
    ghost weight: { ℕ → ℕ };

    fn weight(gap: u16) -> u32
        ensures { result ≡ weight gap };

    ghost rises: { (g h : ℕ) → g ≤ h → weight g ≤ weight h };
}

// The gap itself; weights add.
#[derive(Clone, Copy)]
pub struct Block;

// The gap squared; weights add.
#[derive(Clone, Copy)]
pub struct Square;

// The gap itself; the larger weight stands for both.
#[derive(Clone, Copy)]
pub struct Peak;

// What one reading weighs against another: its eight gaps weighed, and joined from band 0 upward.
pub fn weight<M: Measure>(m: &M, x: &[u16; BANDS], y: &[u16; BANDS]) -> u32
    ensures value { result ≡ weight_of (M.weighed m.now) (M.joined m.now) x.now y.now }
    ensures monotone { Monotone (M.weighed m.now) (M.joined m.now) }
{
    join_gaps(m, &gaps(x, y))
}

// The weight of a gap in each band, joined from band 0 upward.
pub fn join_gaps<M: Measure>(m: &M, gaps: &[u16; BANDS]) -> u32
    ensures { result ≡ join_to (M.weighed m.now) (M.joined m.now) (λ b. slice_index gaps.now b) 7 }
{
    (1..BANDS as u8)
        .zip(&gaps[1..])
        .fold(m.weigh(0, gaps[0]), |joined, (band, gap)| {
            m.join(joined, m.weigh(band, *gap))
        })
}

// The absolute difference in each band.
pub fn gaps(x: &[u16; BANDS], y: &[u16; BANDS]) -> [u16; BANDS]
    ensures { (b : ℕ) → b < 8 → slice_index result b ≡ gap_at x.now y.now b }
{
    array::from_fn(|band| x[band].abs_diff(y[band]))
}

// Added weights are held at the largest weight.
impl<A: Additive> Measure for A {
    ghost weighed = { λ _ _. A.weight };

    ghost joined = { λ _. held_sum };

    ghost weigh_rises = { λ _ _. A.rises };

    ghost join_rises = { Prim.search rules };

    fn weigh(&self, _band: u8, gap: u16) -> u32 {
        A::weight(gap)
    }

    fn join(&self, u: u32, v: u32) -> u32 {
        u.saturating_add(v)
    }
}

impl Additive for Block {
    ghost weight = { λ g. g };

    ghost rises = { λ _ _ le. le };

    fn weight(gap: u16) -> u32 {
        u32::from(gap)
    }
}

impl Additive for Square {
    ghost weight = { λ g. g * g };

    ghost rises = { λ _ _ le. mul-le-mul le le };

    fn weight(gap: u16) -> u32 {
        u32::from(gap) * u32::from(gap)
    }
}

// It weighs as Block does, which is one call of std, and is said twice for that.
impl Measure for Peak {
    ghost weighed = { λ _ _ g. g };

    ghost joined = { λ _. max };

    ghost weigh_rises = { Prim.search rules };

    ghost join_rises = { Prim.search rules };

    fn weigh(&self, _band: u8, gap: u16) -> u32 {
        u32::from(gap)
    }

    fn join(&self, u: u32, v: u32) -> u32 {
        u.max(v)
    }
}
