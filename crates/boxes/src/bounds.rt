// A box: a depth from 0 to 80 and a corner in each band, always on the grid.
ghost use Rattle.std.specs.Prelude.{◌≡◌, ◌≤◌, true};
ghost use Rattle.boxes.specs.Grids.{gridded};

use measure::BANDS;

mod methods;

// The depth at which a box covers one value in each band.
pub const MAX_DEPTH: u8 = 80;

#[derive(Clone, Copy)]
pub struct Bounds {
    depth: u8,
    corner: [u16; BANDS],
    ghost on_grid: { gridded depth corner ≡ true },
}

impl Bounds {
    pub fn depth(&self) -> u8
        ensures value { result ≡ self.now.depth }
        ensures bound { result ≤ 80 }
    {
        self.depth
    }

    pub fn corner(&self) -> &[u16; BANDS]
        ensures { result.now ≡ self.now.corner }
    {
        &self.corner
    }
}
