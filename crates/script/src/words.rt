// The letter that a line begins with, and the numbers that the words behind it write.
ghost use Rattle.std.specs.Prelude.{◌≡◌, ◌≤◌, ◌==◌, ℕ, List, length};
ghost use Rattle.std.specs.Iterator.{at_most};
ghost use Rattle.std.specs.List.{position_or_len};
ghost use Rattle.std.specs.Result.{result_ok};
ghost use Rattle.script.specs.Numbers.{number_of, numbers};
ghost use Rattle.script.specs.Steps.{words_left, NextWord, Behind, Gives, Parts, Lengthens};

use crate::Unreadable;

const SPACE: u8 = b' ';

// A number has at most so many digits.
const MAX_DIGITS: usize = 5;

// The words of a line that are still to come. Byte by byte: to part a text at a `char` decodes each of its characters, and so a
// line took twice as long.
#[derive(Drop)]
pub struct Words<'a> {
    rest: Option<&'a [u8]>,
}

impl<'a> Words<'a> {
    // The words that these bytes behind a letter hold: none, or those behind a space.
    pub fn behind(bytes: &'a [u8]) -> Result<Words<'a>, Unreadable>
        ensures { Behind bytes.now result }
    {
        match bytes.split_first() {
            None => Ok(Words { rest: None }),
            Some((first, rest)) if *first == SPACE => Ok(Words { rest: Some(rest) }),
            Some((_, _)) => Err(Unreadable),
        }
    }
}

impl<'a> Iterator for Words<'a> {
    type Item = &'a [u8];

    ghost next_gives = { NextWord };

    ghost remaining = { λ words. at_most (length (words_left words)) };

    // The next word, and behind its space the others.
    fn next(&mut self) -> Option<&'a [u8]> {
        let rest = self.rest?;
        let (word, behind) = rest.split_at(word_len(rest));
        self.rest = behind.get(1..);
        Some(word)
    }
}

// How many bytes the first word has before its space.
fn word_len(words: &[u8]) -> usize
    ensures value { result ≡ position_or_len (λ b. b == 32) words.now }
    ensures within { result ≤ length words.now }
{
    words
        .iter()
        .position(|b| *b == SPACE)
        .unwrap_or(words.len())
}

// The letter that a line begins with, and the words behind it.
pub fn letter_and_words(line: &[u8]) -> Result<(char, Words<'_>), Unreadable>
    ensures { Parts line.now result }
{
    let (letter, behind) = line.split_first().ok_or(Unreadable)?;
    if *letter == SPACE {
        return Err(Unreadable);
    }
    let words = Words::behind(behind)?;
    Ok((char::from(*letter), words))
}

// The numbers that the words write, if there are just N and each writes one: word by word, up to the first that writes none.
pub fn numbers<const N: usize>(mut words: Words<'_>) -> Result<[u16; N], Unreadable>
    ensures { (ws : List (List ℕ)) → Gives words.entry ws → result_ok result ≡ numbers N ws }
{
    let mut values = [0; N];
    for value in values.iter_mut() {
        let word = words.next().ok_or(Unreadable)?;
        *value = number(word)?;
    }
    match words.next() {
        None => Ok(values),
        Some(_) => Err(Unreadable),
    }
}

// The number that a word writes.
fn number(word: &[u8]) -> Result<u16, Unreadable>
    ensures { result_ok result ≡ number_of word.now }
{
    if word.is_empty() || word.len() > MAX_DIGITS {
        return Err(Unreadable);
    }
    let mut value = 0;
    for byte in word {
        value = lengthened(value, *byte)?;
    }
    Ok(value)
}

// A number with one digit more, if the byte is one and the number stays in range.
fn lengthened(value: u16, byte: u8) -> Result<u16, Unreadable>
    ensures { Lengthens value byte (result_ok result) }
{
    if !byte.is_ascii_digit() {
        return Err(Unreadable);
    }
    let more = 10 * u32::from(value) + u32::from(byte - b'0');
    u16::try_from(more).map_err(|_| Unreadable)
}
