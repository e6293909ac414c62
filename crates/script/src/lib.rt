// A script: its measure, and then its commands, line by line.
#![tactic(auto)]

ghost use Rattle.std.specs.Prelude.{◌≡◌, ◌≤◌, length, ◌==◌};
ghost use Rattle.std.specs.List.{position_or_len};
ghost use Rattle.std.specs.Iterator.{at_most};
ghost use Rattle.script.specs.Commands.{kind_numbered};
ghost use Rattle.script.specs.Scripts.{Opens, Tells, text_left};
ghost use Rattle.script.specs.Steps.{FirstLine};

mod commands;
mod words;

pub use commands::{parse_command, parse_measure};
use measure::BANDS;

// A longer text is refused whole.
pub const MAX_BYTES: usize = 65535;

const LINE_FEED: u8 = b'\n';

// The measure that the first line names, by its number from 0 on.
#[derive(Clone, Copy, PartialEq, Eq, Debug)]
pub enum MeasureKind {
    Block,
    Square,
    Peak,
    Damped,
}

// Each number stands for one measure, or for none.
impl TryFrom<u16> for MeasureKind {
    type Error = Unreadable;

    ghost try_from_gives = { λ number r. r ≡ kind_numbered number };

    // The measure with this number.
    fn try_from(number: u16) -> Result<MeasureKind, Unreadable> {
        match number {
            0 => Ok(MeasureKind::Block),
            1 => Ok(MeasureKind::Square),
            2 => Ok(MeasureKind::Peak),
            3 => Ok(MeasureKind::Damped),
            _ => Err(Unreadable),
        }
    }
}

// What a later line asks for, with its numbers as they were written.
#[derive(Clone, Copy, PartialEq, Eq, Debug)]
pub enum Command {
    Admit {
        slot: u16,
        fibre: u16,
        values: [u16; BANDS],
    },
    Withdraw {
        slot: u16,
    },
    Rebuild,
    Query(Query),
}

// A question: the fibre of a reading by its k nearest, at the ratio of num to den.
#[derive(Clone, Copy, PartialEq, Eq, Debug)]
pub struct Query {
    pub k: u16,
    pub num: u16,
    pub den: u16,
    pub reading: [u16; BANDS],
}

// The refusal of a line, or of a whole text.
#[derive(Clone, Copy, PartialEq, Eq, Debug)]
pub struct Unreadable;

// The lines of a script that have not been read yet.
#[derive(Drop)]
pub struct Script<'a> {
    rest: &'a [u8],
}

// A script is opened, and its lines are taken one by one.
impl<'a> Script<'a> {
    // The measure of the first line, and the lines behind it; refused where the text is too long or
    // its first line names no measure.
    pub fn open(text: &'a [u8]) -> Result<(MeasureKind, Script<'a>), Unreadable>
        ensures { Opens text.now result }
    {
        if text.len() > MAX_BYTES {
            return Err(Unreadable);
        }
        let mut script = Script { rest: text };
        let line = script.take_line().ok_or(Unreadable)?;
        let measure = parse_measure(line)?;
        Ok((measure, script))
    }

    // The bytes of the next line, without its line feed. By its length: `split` is no plainer, since what is left behind the
    // line feed is to be kept too.
    fn take_line(&mut self) -> Option<&'a [u8]>
        ensures { FirstLine self.old result self.new }
    {
        if self.rest.is_empty() {
            return None;
        }
        let (line, behind) = self.rest.split_at(line_len(self.rest));
        self.rest = behind.get(1..).unwrap_or(&[]);
        Some(line)
    }
}

// How many bytes the first line of a text has before its line feed.
fn line_len(text: &[u8]) -> usize
    ensures value { result ≡ position_or_len (λ b. b == 10) text.now }
    ensures within { result ≤ length text.now }
{
    text.iter()
        .position(|b| *b == LINE_FEED)
        .unwrap_or(text.len())
}

// A script yields what its lines say.
impl Iterator for Script<'_> {
    type Item = Result<Command, Unreadable>;

    ghost next_gives = { Tells };

    ghost remaining = { λ s. at_most (length (text_left s)) };

    // The next line, read or refused; none where no line is left.
    fn next(&mut self) -> Option<Result<Command, Unreadable>> {
        let line = self.take_line()?;
        Some(parse_command(line))
    }
}

#[cfg(test)]
mod tests {
    use super::*;
    use std::process::Abort;
    use std::test::Fail;

    // Each of the lines is refused.
    fn all_unreadable(rt: &impl Abort, lines: &[&[u8]]) {
        for line in lines {
            assert_eq!(rt; parse_command(line), Err(Unreadable));
        }
    }

    #[test]
    fn empty_text(rt: HostRuntime) {
        assert!(rt; Script::open(b"").is_err());
    }

    #[test]
    fn size_limit(rt: HostRuntime) {
        let mut text = [b'\n'; 65536];
        text[0..3].copy_from_slice(b"M 0");
        assert!(rt; Script::open(&text[0..MAX_BYTES]).is_ok());
        assert!(rt; Script::open(&text).is_err());
    }

    #[test]
    fn last_line_without_line_feed(rt: HostRuntime) -> Result<(), Fail> {
        let (measure, mut script) = Script::open(b"M 03\n\nR")?;
        assert_eq!(rt; measure, MeasureKind::Damped);
        assert_eq!(rt; script.next(), Some(Err(Unreadable)));
        assert_eq!(rt; script.next(), Some(Ok(Command::Rebuild)));
        assert_eq!(rt; script.next(), None);
        Ok(())
    }

    #[test]
    fn leading_zeros(rt: HostRuntime) {
        let reading = [1, 2, 3, 4, 5, 6, 7, 8];
        let query = Query {
            k: 5,
            num: 2,
            den: 65535,
            reading,
        };
        assert_eq!(rt;
            parse_command(b"W 00007"),
            Ok(Command::Withdraw { slot: 7 })
        );
        assert_eq!(rt;
            parse_command(b"Q 05 2 65535 1 2 3 4 5 6 7 08"),
            Ok(Command::Query(query))
        );
    }

    #[test]
    fn second_measure_line(rt: HostRuntime) {
        all_unreadable(&rt, &[b"M 0"]);
    }

    #[test]
    fn other_measures(rt: HostRuntime) {
        assert_eq!(rt; parse_measure(b"M 4"), Err(Unreadable));
        assert_eq!(rt; parse_measure(b"R"), Err(Unreadable));
    }

    #[test]
    fn words_too_few_or_many(rt: HostRuntime) {
        all_unreadable(&rt, &[b"", b"W", b"W 1 2", b"R 1", b"A 1 2 3 4 5 6 7 8 9"]);
    }

    #[test]
    fn numbers_too_long_or_large(rt: HostRuntime) {
        all_unreadable(&rt, &[b"W 000001", b"W 65536"]);
    }

    #[test]
    fn spaces_too_many(rt: HostRuntime) {
        all_unreadable(&rt, &[b" R", b"R ", b"W  1", b"W 1 "]);
    }

    #[test]
    fn other_bytes(rt: HostRuntime) {
        all_unreadable(&rt, &[b"r", b"R\r", b"W\t1", b"W +1", b"W 1\0", b"W \xff"]);
    }
}
