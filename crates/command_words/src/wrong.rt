//! What is the matter with words that ask for no job, for a person.

use crate::fault::WordsFault;
use crate::given::{are_digits, text_of, times};
use crate::help::{COMMANDS, Command};
use crate::live::names_between;
use crate::table::{
    CHAIR_NAME, FORMAT_START, LANE_NAMES, LANES, MTU, NameOption, NumberOption, SEED, SEQ, SSRC,
    STAMP, TICKS, TURNS,
};
use std::alloc::Global;
use std::fmt::{Display, Formatter, Result, Write};
use strsim::levenshtein;

/// What is the matter with words that ask for no job, the first thing that is. It shows as one line of text.
#[derive(Clone, Copy)]
pub enum Wrong<'a> {
    /// There are no words.
    None,
    /// The first word is no command. Where one is like it, that is the nearest.
    Command {
        word: &'a str,
        nearest: Option<Command>,
    },
    /// The word is not `--NAME=VALUE`.
    Form {
        word: &'a str,
    },
    /// The command has no option that the word gives. Where one is like it, its words begin so.
    Option {
        word: &'a str,
        command: Command,
        nearest: Option<&'static str>,
    },
    /// Two words give the option of this beginning.
    Twice {
        start: &'static str,
    },
    /// No word gives the option of this beginning, and it has to be given.
    Missing {
        start: &'static str,
    },
    /// The option does not take this value.
    Value {
        start: &'static str,
        value: &'a str,
        wanted: Wanted,
    },
}

/// What the value of an option has to be.
#[derive(Clone, Copy)]
pub enum Wanted {
    Number { low: u64, high: u64 },
    Format,
    Names,
    Name,
}

/// An option of a command, as what is the matter with it is looked for.
#[derive(Clone, Copy)]
struct Row {
    start: &'static str,
    wanted: Wanted,
    /// Whether it has to be given.
    needed: bool,
}

const FORMAT_ROW: Row = Row {
    start: FORMAT_START,
    wanted: Wanted::Format,
    needed: false,
};

// The option of a number.
fn number_row(option: &NumberOption) -> Row {
    let low = option.low;
    let high = option.high;
    Row {
        start: option.start,
        wanted: Wanted::Number { low, high },
        needed: false,
    }
}

// The option of a name or of names.
fn name_row(option: &NameOption, wanted: Wanted) -> Row {
    Row {
        start: option.start,
        wanted,
        needed: true,
    }
}

/// What is the matter with the words, where something is: the first thing that is, in the order in which they are read.
pub fn what_is_wrong<'a>(alloc: Global, words: &'a [String]) -> Option<Wrong<'a>> {
    let Some((name, options)) = words.split_first() else {
        return Some(Wrong::None);
    };
    let word = name.as_str();
    match Command::named(word) {
        Some(command) => wrong_options(alloc, command, options),
        None => Some(unknown_command(alloc, word)),
    }
}

// What is the matter with the words behind a command.
fn wrong_options<'a>(alloc: Global, command: Command, options: &'a [String]) -> Option<Wrong<'a>> {
    let packets = [
        number_row(&MTU),
        number_row(&SSRC),
        number_row(&SEQ),
        number_row(&STAMP),
    ];
    let [mtu, ssrc, seq, stamp] = packets;
    match command {
        Command::Replay => wrong_of(alloc, command, &packets, options),
        Command::Check | Command::Decode => wrong_of(alloc, command, &[FORMAT_ROW], options),
        Command::History => wrong_of(alloc, command, &[], options),
        Command::Make => {
            let rows = [number_row(&SEED), number_row(&TICKS), number_row(&LANES)];
            wrong_of(alloc, command, &rows, options)
        }
        Command::Live => {
            let lanes = name_row(&LANE_NAMES, Wanted::Names);
            let chair = name_row(&CHAIR_NAME, Wanted::Name);
            let turns = number_row(&TURNS);
            let rows = [lanes, chair, mtu, ssrc, seq, stamp, turns];
            wrong_of(alloc, command, &rows, options)
        }
    }
}

// What is the matter with the words behind a command of these options.
fn wrong_of<'a>(
    alloc: Global,
    command: Command,
    rows: &[Row],
    options: &'a [String],
) -> Option<Wrong<'a>> {
    for option in options {
        let word = option.as_str();
        if !rows.iter().any(|row| word.starts_with(row.start)) {
            return Some(unknown(alloc, command, rows, word));
        }
    }
    for row in rows {
        if 1 < times(options, row.start) {
            return Some(Wrong::Twice { start: row.start });
        }
    }
    rows.iter().find_map(|row| wrong_value(alloc, row, options))
}

// What is the matter with what the words give to an option.
fn wrong_value<'a>(alloc: Global, row: &Row, options: &'a [String]) -> Option<Wrong<'a>> {
    let Row {
        start,
        wanted,
        needed,
    } = *row;
    match text_of(options, start) {
        None if needed => Some(Wrong::Missing { start }),
        Some(value) if !takes(alloc, wanted, value) => Some(Wrong::Value {
            start,
            value,
            wanted,
        }),
        _ => None,
    }
}

// Whether the value is one of those.
fn takes(alloc: Global, wanted: Wanted, value: &str) -> bool {
    match wanted {
        Wanted::Number { low, high } => {
            are_digits(value.as_bytes())
                && value
                    .parse::<u64>()
                    .is_ok_and(|number| low <= number && number <= high)
        }
        Wanted::Format => value == "qcif" || value == "cif",
        Wanted::Names => !matches!(names_between(alloc, value), Err(WordsFault::Usage)),
        Wanted::Name => !value.is_empty(),
    }
}

// What is the matter with a word that gives no option of the command.
fn unknown<'a>(alloc: Global, command: Command, rows: &[Row], word: &'a str) -> Wrong<'a> {
    let Some((name, _value)) = word.split_once('=') else {
        return Wrong::Form { word };
    };
    if !name.starts_with("--") {
        return Wrong::Form { word };
    }
    let mut nearest = Nearest::new(name);
    for row in rows {
        let start = row.start;
        nearest.see(alloc, start.strip_suffix("=").unwrap_or(start), start);
    }
    Wrong::Option {
        word,
        command,
        nearest: nearest.found,
    }
}

/// What is the matter with a word that is no command.
pub fn unknown_command<'a>(alloc: Global, word: &'a str) -> Wrong<'a> {
    let mut nearest = Nearest::new(word);
    for command in COMMANDS {
        nearest.see(alloc, command.name(), command);
    }
    Wrong::Command {
        word,
        nearest: nearest.found,
    }
}

/// The fewest changes of letters by which a word is not one of those that it was compared with, and what that one stands for.
#[derive(Drop)]
struct Nearest<'a, T> {
    word: &'a str,
    changes: usize,
    found: Option<T>,
}

impl<'a, T: Drop> Nearest<'a, T> {
    // Of three changes and more nothing is told.
    fn new(word: &'a str) -> Nearest<'a, T> {
        Nearest {
            word,
            changes: 3,
            found: None,
        }
    }

    // Compares it with one more.
    fn see(&mut self, alloc: Global, name: &str, stands_for: T) {
        // where there is no memory for it, nothing is told
        if let Ok(changes) = levenshtein(alloc, self.word, name) {
            if changes < self.changes {
                self.changes = changes;
                self.found = Some(stands_for);
            }
        }
    }
}

impl Display for Wanted {
    fn fmt<W: Write>(&self, f: &mut Formatter<W>) -> Result {
        match self {
            Wanted::Number { low, high } => write!(f, "a number from {low} to {high}"),
            Wanted::Format => f.write_str("qcif or cif"),
            Wanted::Names => f.write_str("1 to 16 names with commas between"),
            Wanted::Name => f.write_str("a name"),
        }
    }
}

impl<'a> Display for Wrong<'a> {
    fn fmt<W: Write>(&self, f: &mut Formatter<W>) -> Result {
        match self {
            Wrong::None => f.write_str("a command is missing"),
            Wrong::Command {
                word,
                nearest: None,
            } => write!(f, "there is no command {word:?}"),
            Wrong::Command {
                word,
                nearest: Some(command),
            } => {
                let name = command.name();
                write!(f, "there is no command {word:?}; the nearest is {name}")
            }
            Wrong::Form { word } => write!(f, "{word:?} is not --NAME=VALUE"),
            Wrong::Option {
                word,
                command,
                nearest,
            } => {
                let name = command.name();
                write!(f, "{name} has no option {word:?}")?;
                match nearest {
                    Some(start) => write!(f, "; the nearest is {start}"),
                    None => Ok(()),
                }
            }
            Wrong::Twice { start } => write!(f, "{start} is given twice"),
            Wrong::Missing { start } => write!(f, "{start} is missing"),
            Wrong::Value {
                start,
                value,
                wanted,
            } => write!(f, "{start} takes {wanted}, and not {value:?}"),
        }
    }
}
