//! The command of a line.

ghost use Rattle.std.specs.Prelude.{◌≡◌, ◌≢◌, ◌≤◌, ℕ, nat_lt, length, IfOk, IfErr, MatchOption};
ghost use Rattle.pel_model.specs.Regions.{number_of};
ghost use Rattle.pel_model.specs.declared.chair.Command.{Command};
ghost use Rattle.chair_words.specs.declared.reader.LineWhy.{LineWhy};
ghost use Rattle.chair_words.specs.Words.{word_from, words_in};
ghost use Rattle.chair_words.specs.Line.{longest_line, Says, HasFaultAt, command_name, a_place, a_lane, from_to};
ghost use Rattle.chair_words.specs.Reading.{AnswersLine, text_of};
ghost use Rattle.chair_words.specs.Taking.{ReadsNumber, ReadsCommand};

use crate::numbers::number_of;
use crate::words::{Word, Words, word_start};
use pel_model::{Command, Quad};
use thiserror::Error;

/// Why a line is refused.
#[derive(Clone, Copy, Debug, PartialEq, Eq)]
pub enum LineWhy {
    /// The first word is no command's name.
    Unknown,
    /// A word is missing at the line's end.
    Missing,
    /// A word is not one to three digits that spell a place from 1 to 4 or a lane from 0 to 15, as the command asks.
    BadNumber,
    /// A word stands behind the command's last number.
    Extra,
}

/// The first fault of a line: its reason, and the first byte of the word at fault, or the line's length where a
/// word is missing.
#[derive(Clone, Copy, Debug, PartialEq, Eq, Error)]
#[error("{why:?} at byte {place}")]
pub struct LineFault {
    pub place: u16,
    pub why: LineWhy,
}

/// The commands' names.
#[derive(Clone, Copy)]
enum Name {
    Place,
    Clear,
    Swap,
    Speaker,
    Pin,
    Unpin,
}

/// The name that the word is, if it is one.
fn name_in(word: &[u8]) -> Option<Name>
    ensures { MatchOption result ((c : Command) → word.now ≢ command_name c) (λ n. word.now ≡ text_of n) }
{
    if word == "place".as_bytes() {
        Some(Name::Place)
    } else if word == "clear".as_bytes() {
        Some(Name::Clear)
    } else if word == "swap".as_bytes() {
        Some(Name::Swap)
    } else if word == "speaker".as_bytes() {
        Some(Name::Speaker)
    } else if word == "pin".as_bytes() {
        Some(Name::Pin)
    } else if word == "unpin".as_bytes() {
        Some(Name::Unpin)
    } else {
        None
    }
}

impl<'a> Word<'a> {
    /// The word at fault.
    fn fault(self, why: LineWhy) -> LineFault
        requires { self.start ≤ longest_line }
        ensures { result ≡ record { place = self.entry.start; why = why } }
    {
        LineFault {
            place: self.start as u16,
            why,
        }
    }
}

impl<'a> Words<'a> {
    /// The fault of a line that ends where a word has to stand.
    fn missing(&self) -> LineFault
        ensures { result ≡ record { place = length self.now.line.now; why = LineWhy.Missing } }
    {
        LineFault {
            place: self.line.len() as u16,
            why: LineWhy::Missing,
        }
    }

    /// The next word, as a number from low to high.
    fn number(&mut self, low: u16, high: u16) -> Result<u8, LineFault>
        requires { high ≤ 255 }
        ensures { ReadsNumber (λ (n : ℕ). n) (from_to low high) self.old self.new result }
    {
        let Some(word) = self.next() else {
            return Err(self.missing());
        };
        match number_of(word.text) {
            Some(number) if low <= number && number <= high => Ok(number as u8),
            _ => Err(word.fault(LineWhy::BadNumber)),
        }
    }

    /// The next word, as a place.
    fn place(&mut self) -> Result<Quad, LineFault>
        ensures { ReadsNumber number_of a_place self.old self.new result }
    {
        let quad = match self.number(1, 4)? {
            1 => Quad::One,
            2 => Quad::Two,
            3 => Quad::Three,
            _ => Quad::Four,
        };
        Ok(quad)
    }

    /// The next word, as a lane.
    fn lane(&mut self) -> Result<u8, LineFault>
        ensures { ReadsNumber (λ (n : ℕ). n) a_lane self.old self.new result }
    {
        self.number(0, 15)
    }

    /// The command of this name, with the next words as its numbers.
    fn command(&mut self, name: Word<'a>) -> Result<Command, LineFault>
        requires { name.start ≤ longest_line }
        ensures { ReadsCommand (word_from name.entry.start name.entry.text.now) self.old self.new result }
    {
        let Some(known) = name_in(name.text) else {
            return Err(name.fault(LineWhy::Unknown));
        };
        let command = match known {
            Name::Place => Command::Place(self.place()?, self.lane()?),
            Name::Clear => Command::Clear(self.place()?),
            Name::Swap => Command::Swap(self.place()?, self.place()?),
            Name::Speaker => Command::Speaker(self.lane()?),
            Name::Pin => Command::Pin(self.place()?),
            Name::Unpin => Command::Unpin(self.place()?),
        };
        Ok(command)
    }
}

/// The command that the line says, or its first fault.
fn answer(line: &[u8]) -> Result<Command, LineFault>
    requires { length line.now ≤ longest_line }
    ensures { AnswersLine line.now result }
{
    let mut words = Words::new(line);
    let Some(name) = words.next() else {
        return Err(words.missing());
    };
    let command = words.command(name)?;
    match words.next() {
        None => Ok(command),
        Some(extra) => Err(extra.fault(LineWhy::Extra)),
    }
}

/// Whether the line has a word at all.
pub fn has_words(line: &[u8]) -> bool
    ensures { result ≡ nat_lt 0 (length (words_in line.now)) }
{
    word_start(line, 0) < line.len()
}

/// The command that a line of at most 255 bytes says. Words are parted by spaces, tabs and carriage returns. The first
/// word is the command's name, byte for byte; then come its numbers, each of one to three digits. Else the line's first
/// fault, with its place in bytes.
pub fn read_line(line: &[u8]) -> Result<Command, LineFault>
    requires { length line.now ≤ longest_line }
    ensures command { IfOk result (λ c. Says line.now c) }
    ensures fault { IfErr result (λ e. HasFaultAt line.now e.place e.why) }
    ensures accepts { (c : Command) → Says line.now c → result ≡ Ok c }
    ensures refuses { (place : ℕ) (why : LineWhy) → HasFaultAt line.now place why
        → result ≡ Err (record { place = place; why = why }) }
{
    answer(line)
}
