// What a question is made of.
ghost use Rattle.std.specs.Prelude.{◌≡◌, ◌≤◌, ◌<◌, is_ok, MatchResult};
ghost use Rattle.field.specs.Fields.{holds};
ghost use Rattle.samples.specs.declared.refusal.Refusal.TheVariants.{OutOfRange};
ghost use Rattle.walk.specs.Asked.{asked_of, asked_by};
ghost use Rattle.walk.specs.Questions.{in_range, ask_rule};

use super::Question;
use field::Field;
use measure::BANDS;
use samples::{MAX_K, MIN_K, Reading, Refusal};

impl Question {
    // A question for the k nearest of a reading, in a ratio of num to den, if all are in range. They come as 16-bit numbers,
    // as a script can name them.
    pub fn new(reading: &[u16; BANDS], k: u16, num: u16, den: u16) -> Result<Question, Refusal>
        ensures test { is_ok result ≡ in_range (record { reading = reading.now; k = k; num = num; den = den }) }
        ensures value { MatchResult result (λ q. asked_of q ≡ record { reading = reading.now; k = k; num = num; den = den }) (λ e. e ≡ OutOfRange) }
    {
        let reading = Reading::new(reading)?;
        if !(MIN_K..=MAX_K).contains(&k) || den == 0 || num < den {
            return Err(Refusal::OutOfRange);
        }
        Ok(Question {
            reading,
            k,
            num,
            den,
        })
    }

    // The reading.
    pub fn reading(&self) -> &[u16; BANDS]
        ensures { result.now ≡ self.now.reading.values }
    {
        self.reading.values()
    }

    // How many of the nearest samples are asked for.
    pub fn k(&self) -> u16
        ensures value { result ≡ self.now.k }
        ensures some { 0 < result }
        ensures most { result ≤ 32 }
    {
        self.k
    }

    // The ratio, as a number over another.
    pub fn ratio(&self) -> (u16, u16)
        ensures num { result.0 ≡ self.now.num }
        ensures den { result.1 ≡ self.now.den }
        ensures ratio { result.1 ≤ result.0 }
    {
        (self.num, self.den)
    }
}

// A question to the samples of a field: what is out of range is refused first, then a k above the samples held.
pub fn ask(
    field: &Field,
    reading: &[u16; BANDS],
    k: u16,
    num: u16,
    den: u16,
) -> Result<Question, Refusal>
    ensures { asked_by result ≡ ask_rule (holds field.now) (record { reading = reading.now; k = k; num = num; den = den }) }
{
    let question = Question::new(reading, k, num, den)?;
    if k > field.slots().count() {
        return Err(Refusal::TooFewSamples);
    }
    Ok(question)
}
