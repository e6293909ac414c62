// Which of eight codes has the most votes.
#![tactic(auto)]

ghost use Rattle.std.specs.Prelude.{◌≡◌, slice_index};
ghost use Rattle.ranking.specs.Majority.{leader, Leads};

use std::cmp::Reverse;

// How many codes there are.
pub const CODES: usize = 8;

// The code with the most votes, the lowest where several have as many. A code is a number here, the index of its votes.
pub fn most_common(votes: &[u32; CODES]) -> u8
    ensures value { result ≡ leader (λ j. slice_index votes.now j) 8 }
    ensures leads { Leads (λ j. slice_index votes.now j) 8 result }
{
    // `min_by_key` keeps the first of several that are equal, and `max_by_key` would keep the last.
    (0..CODES as u8)
        .min_by_key(|code| Reverse(votes[usize::from(*code)]))
        .unwrap()
}
