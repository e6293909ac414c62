// One entry of a walk: a node with the samples in it, or a single sample.
use ranking::CODES;

// What an entry stands for: a node, by its number and depth, or the sample in a slot.
#[derive(Clone, Copy)]
pub enum Of {
    Node { number: u16, depth: u8 },
    Sample { slot: u8 },
}

// The bounds of the weights of its samples, how many there are, and how many of each fibre.
#[derive(Clone, Copy, Default)]
pub struct Entry {
    pub of: Of,
    pub near: u32,
    pub far: u32,
    pub count: u16,
    pub fibres: [u16; CODES],
}

impl Default for Of {
    fn default() -> Of {
        Of::Sample { slot: 0 }
    }
}
