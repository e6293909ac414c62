// A buffer that is written from its front: numbers with the low byte first.
ghost use Rattle.std.specs.Prelude.{◌≡◌, ◌≤◌, length};
ghost use Rattle.boxes.specs.Views.{entries};
ghost use Rattle.records.specs.Bytes.{le2, row};

// How many numbers stand in a row: the values of bands, or the counts of fibres.
pub(crate) const ROW: usize = 8;

// The first `at` bytes of the buffer are written. The buffer stays whole, since what `write` promises is told of all of it.
#[derive(Drop)]
pub(crate) struct Cursor<'a> {
    pub(crate) out: &'a mut [u8],
    pub(crate) at: usize,
    ghost within: { at ≤ length out.now },
}

impl<'a> Cursor<'a> {
    ghost use Rattle.fieldfile.specs.Cursors.{left, Adds};

    // A buffer with nothing written yet.
    pub(crate) fn new(out: &'a mut [u8]) -> Cursor<'a>
        ensures buffer { result.out.ghost_name ≡ out.entry.ghost_name }
        ensures bytes { result.out.now ≡ out.old }
        ensures at { result.at ≡ 0 }
    {
        Cursor { out, at: 0 }
    }

    // Writes bytes.
    pub(crate) fn put(&mut self, bytes: &[u8])
        requires { length bytes.now ≤ left self.old }
        ensures { Adds self.old self.new bytes.now }
    {
        let end = self.at + bytes.len();
        self.out[self.at..end].copy_from_slice(bytes);
        self.at = end;
    }

    // Writes a number in two bytes.
    pub(crate) fn put_u16(&mut self, number: u16)
        requires { 2 ≤ left self.old }
        ensures { Adds self.old self.new (le2 number) }
    {
        self.put(&number.to_le_bytes());
    }

    // Writes eight numbers, in two bytes each.
    pub(crate) fn put_row(&mut self, numbers: &[u16; ROW])
        requires { 16 ≤ left self.old }
        ensures { Adds self.old self.new (row (entries numbers.now)) }
    {
        for number in numbers {
            self.put_u16(*number);
        }
    }
}
