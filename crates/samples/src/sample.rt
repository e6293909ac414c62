// Readings and samples: eight values up to 1023, and a fibre code up to 7. No value of these types is out of range.
ghost use Rattle.std.specs.Prelude.{◌≡◌, ◌<◌, true, ◌&&◌, is_ok, MatchResult, nat_lt};
ghost use Rattle.samples.specs.Ranges.{below};
ghost use Rattle.samples.specs.declared.refusal.Refusal.TheVariants.{OutOfRange};

use super::refusal::Refusal;
use measure::BANDS;

// The largest value of a band.
pub const MAX_VALUE: u16 = 1023;

// The largest fibre code.
pub const MAX_FIBRE: u16 = 7;

// Eight values, one of each band, none above the largest.
#[derive(Clone, Copy)]
pub struct Reading {
    values: [u16; BANDS],
    ghost within: { below 1024 values ≡ true },
}

// The fibre is its code: files, scripts and answers write it as a number, and counts are indexed by it.
#[derive(Clone, Copy)]
pub struct Sample {
    fibre: u8,
    reading: Reading,
    ghost coded: { fibre < 8 },
}

impl Reading {
    // A reading of these values, if all are in range.
    pub fn new(values: &[u16; BANDS]) -> Result<Reading, Refusal>
        ensures test { is_ok result ≡ below 1024 values.now }
        ensures value { MatchResult result (λ x. x.values ≡ values.now) (λ e. e ≡ OutOfRange) }
    {
        if values.iter().all(|value| *value <= MAX_VALUE) {
            Ok(Reading { values: *values })
        } else {
            Err(Refusal::OutOfRange)
        }
    }

    // The value of each band.
    pub fn values(&self) -> &[u16; BANDS]
        ensures { result.now ≡ self.now.values }
    {
        &self.values
    }
}

impl Sample {
    // A sample of this fibre and these values, if all are in range: numbers that may be out of it are what is refused.
    pub fn new(fibre: u16, values: &[u16; BANDS]) -> Result<Sample, Refusal>
        ensures test { is_ok result ≡ (nat_lt fibre 8 && below 1024 values.now) }
        ensures value { MatchResult result (λ x. (x.fibre ≡ fibre) × (x.reading.values ≡ values.now)) (λ e. e ≡ OutOfRange) }
    {
        if fibre > MAX_FIBRE {
            return Err(Refusal::OutOfRange);
        }
        let reading = Reading::new(values)?;
        Ok(Sample {
            fibre: fibre as u8,
            reading,
        })
    }

    // The fibre code.
    pub fn fibre(&self) -> u8
        ensures value { result ≡ self.now.fibre }
        ensures coded { result < 8 }
    {
        self.fibre
    }

    // The value of each band.
    pub fn values(&self) -> &[u16; BANDS]
        ensures { result.now ≡ self.now.reading.values }
    {
        &self.reading.values
    }
}
