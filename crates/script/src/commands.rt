// What one line of a script says.
ghost use Rattle.std.specs.Prelude.{◌≡◌};
ghost use Rattle.script.specs.Commands.{admitted, asked, command_of, measure_of};

use crate::words::{letter_and_words, numbers};
use crate::{Command, MeasureKind, Query, Unreadable};

// The measure that the first line of a script names: one letter, with one number.
pub fn parse_measure(line: &[u8]) -> Result<MeasureKind, Unreadable>
    ensures { result ≡ measure_of line.now }
{
    let (letter, words) = letter_and_words(line)?;
    match letter {
        'M' => {
            let [number] = numbers::<1>(words)?;
            MeasureKind::try_from(number)
        }
        _ => Err(Unreadable),
    }
}

// What a later line says. One match: each letter has other words and another command, so that a table would be no plainer.
pub fn parse_command(line: &[u8]) -> Result<Command, Unreadable>
    ensures { result ≡ command_of line.now }
{
    let (letter, words) = letter_and_words(line)?;
    match letter {
        'A' => Ok(admit(numbers(words)?)),
        'W' => {
            let [slot] = numbers::<1>(words)?;
            Ok(Command::Withdraw { slot })
        }
        'R' => {
            let [] = numbers::<0>(words)?;
            Ok(Command::Rebuild)
        }
        'Q' => Ok(query(numbers(words)?)),
        _ => Err(Unreadable),
    }
}

// A slot, a fibre and the eight values of a sample. Each is named: a pattern `values @ ..` of an
// array was tried, and no proof of it could be made.
fn admit(numbers: [u16; 10]) -> Command
    ensures { result ≡ admitted numbers }
{
    let [slot, fibre, v0, v1, v2, v3, v4, v5, v6, v7] = numbers;
    let values = [v0, v1, v2, v3, v4, v5, v6, v7];
    Command::Admit {
        slot,
        fibre,
        values,
    }
}

// How many are asked, a ratio and the eight values of a reading, named one by one for the same reason.
fn query(numbers: [u16; 11]) -> Command
    ensures { result ≡ asked numbers }
{
    let [k, num, den, v0, v1, v2, v3, v4, v5, v6, v7] = numbers;
    let reading = [v0, v1, v2, v3, v4, v5, v6, v7];
    Command::Query(Query {
        k,
        num,
        den,
        reading,
    })
}
