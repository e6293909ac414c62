// The records of a file that is laid out, and the numbers in them.
ghost use Rattle.std.specs.Prelude.{◌≡◌, ◌<◌, length, MatchResult};
ghost use Rattle.records.specs.Readings.{sample_part, node_part};
ghost use Rattle.fieldfile.specs.Bodies.{Says};
ghost use Rattle.fieldfile.specs.Outlines.{outline_rule};

use super::Body;
use crate::faults::Check;
use crate::numbers::{row_at, u16_at};
use crate::outline::read_outline;
use crate::parts::{Record, record_at};
use measure::BANDS;

// What a sample record says: numbers that may be out of range.
#[derive(Clone, Copy)]
pub(crate) struct Entry {
    pub(crate) slot: u8,
    pub(crate) fibre: u8,
    pub(crate) leaf: u16,
    pub(crate) values: [u16; BANDS],
}

impl<'a> Body<'a> {
    // The records of a file, if it passes the first two checks.
    pub(crate) fn of(file: &'a [u8]) -> Result<Body<'a>, Check>
        ensures { MatchResult result (λ x. x.file.now ≡ file.now) (λ c. outline_rule file.now ≡ Err c) }
    {
        let outline = read_outline(file)?;
        Ok(Body { file, outline })
    }

    // Sample record i.
    pub(crate) fn entry(&self, i: u16) -> Entry
        requires { i < self.now.outline.samples }
        ensures { Says (sample_part self.now.file.now i) result }
    {
        let bytes = match record_at(self.file, self.outline, usize::from(i)) {
            Some(Record::Sample(bytes)) => bytes,
            _ => unreachable!(),
        };
        Entry {
            slot: bytes[0],
            fibre: bytes[1],
            leaf: u16_at(bytes, 2),
            values: row_at(bytes, 4),
        }
    }

    // Node record x.
    pub(crate) fn node_bytes(&self, x: u16) -> &'a [u8]
        requires { x < self.now.outline.nodes }
        ensures value { result.now ≡ node_part self.now.file.now x }
        ensures len { length result.now ≡ 38 }
    {
        let i = usize::from(self.outline.samples) + usize::from(x);
        match record_at(self.file, self.outline, i) {
            Some(Record::Node(bytes)) => bytes,
            _ => unreachable!(),
        }
    }
}
