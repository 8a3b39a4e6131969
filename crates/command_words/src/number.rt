//! The number of an option: `clap` reads it, as a command of one value.

ghost use Rattle.std.specs.Prelude.{◌≡◌, ◌≤◌, true, false, map, option_map, codes, string_bytes, Some, IfOk};
ghost use Rattle.std.specs.Option.{option_map_or};
ghost use Rattle.std.specs.Str.Parse.{digits_value};
ghost use Rattle.clap.specs.Words.{app_of, rows_of, found_of, one_of, is_simple_and_free};
ghost use Rattle.command_words.specs.Options.{are_digits, number_given, number_of_text};
ghost use Rattle.command_words.specs.Numbers.{option_of, is_formed, value_app, Parses};
ghost use Rattle.command_words.specs.Answers.{FindsAsked};

use crate::fault::WordsFault;
use crate::given::{are_digits, text_of};
use crate::table::NumberOption;
use clap::builder::ValueParser;
use clap::error::ErrorKind;
use clap::{Arg, ArgMatches, Command};
use std::alloc::{AllocError, Global};

/// A command of one value in the option's range.
fn value_command<'a>(alloc: Global, option: &NumberOption) -> Result<Command<'a>, AllocError>
    ensures { IfOk result (λ c. app_of c ≡ value_app option.now.low option.now.high) }
{
    let value = Arg::new(alloc, "value").value_parser(ValueParser::unsigned(
        option.low,
        option.high,
    ));
    Command::new(alloc, "number").arg(value)
}

/// What `clap` says of the words.
fn parse<'a>(command: Command<'a>, words: &'a [&'a str]) -> Result<ArgMatches<'a>, WordsFault>
    requires { is_simple_and_free (app_of command) ≡ true }
    ensures { Parses (app_of command.entry) (map (λ w. w.now) words.entry.now) result }
{
    match command.try_get_matches_from(words) {
        Ok(matches) => Ok(matches),
        Err(error) => match error.kind() {
            ErrorKind::OutOfMemory => Err(WordsFault::NoMemory),
            _ => Err(WordsFault::Usage),
        },
    }
}

/// The value that was read.
fn value(matches: &ArgMatches<'_>) -> u64
    requires { option_map_or are_digits (one_of (codes "value") (rows_of (found_of matches.now))) false ≡ true }
    ensures { option_map (digits_value 10) (one_of (codes "value") (rows_of (found_of matches.now))) ≡ Some result }
{
    match matches.get_one::<u64>("value") {
        Some(number) => number,
        None => unreachable!(),
    }
}

/// The number that the digits spell, where it lies in the option's range.
fn read_digits(alloc: Global, digits: &str, option: &NumberOption) -> Result<u64, WordsFault>
    requires { are_digits digits.now ≡ true }
    ensures { FindsAsked (λ n. number_of_text (option_of option.now) digits.now ≡ Some n) result }
{
    let command = value_command(alloc, option)?;
    let words = ["number", digits];
    let matches = parse(command, &words)?;
    Ok(value(&matches))
}

/// The number that the words give to the option, or its value where none gives one. `Usage` says that they give what is no
/// number, or none in its range.
pub fn read_number(
    alloc: Global,
    words: &[String],
    option: &NumberOption,
) -> Result<u64, WordsFault>
    requires { is_formed option.now ≡ true }
    ensures given { FindsAsked (λ n. number_given (map string_bytes words.now) (option_of option.now) ≡ Some n) result }
    ensures within { IfOk result (λ n. n ≤ option.now.high) }
{
    let text = match text_of(words, option.start) {
        Some(text) => text,
        None => option.otherwise,
    };
    if !are_digits(text.as_bytes()) {
        return Err(WordsFault::Usage);
    }
    read_digits(alloc, text, option)
}
