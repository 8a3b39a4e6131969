//! The job that words ask for.

ghost use Rattle.std.specs.Prelude.{◌≡◌, ◌≢◌, ◌⊎◌, ◌∷◌, map, codes, string_bytes, IfOk, MatchOption};
ghost use Rattle.pel_model.specs.declared.Format.{Format};
ghost use Rattle.command_words.specs.declared.fault.WordsFault.{WordsFault};
ghost use Rattle.command_words.specs.declared.job.Job.{Job};
ghost use Rattle.command_words.specs.Options.{are_options, given};
ghost use Rattle.command_words.specs.Asks.{Asks, HasPackets, HasMake, IsFormat, IsInRange, format_name};
ghost use Rattle.command_words.specs.Answers.{name_of_command, option_names, FindsAsked, IsJobOf};

use crate::fault::WordsFault;
use crate::given::{are_options, text_of};
use crate::help::Command;
use crate::job::{FormatOptions, Job, MakeOptions, PacketOptions};
use crate::live::read_live;
use crate::number::read_number;
use crate::table::{
    CHAIR_NAME, CHECK_FORMAT, DECODE_FORMAT, FORMAT_START, FormatOption, LANE_NAMES, LANES, MTU,
    SEED, SEQ, SSRC, STAMP, TICKS, TURNS,
};
use pel_model::Format;
use std::alloc::Global;

/// How packets are written, by the options of `replay`. Other words may stand among them.
pub fn read_packets(alloc: Global, words: &[String]) -> Result<PacketOptions, WordsFault>
    ensures { FindsAsked (HasPackets (map string_bytes words.now)) result }
{
    let mtu = read_number(alloc, words, &MTU)?;
    let ssrc = read_number(alloc, words, &SSRC)?;
    let seq = read_number(alloc, words, &SEQ)?;
    let stamp = read_number(alloc, words, &STAMP)?;
    Ok(PacketOptions {
        mtu: mtu as u16,
        ssrc: ssrc as u32,
        seq: seq as u16,
        stamp: stamp as u32,
    })
}

/// The options of `make`.
fn read_make(alloc: Global, words: &[String]) -> Result<MakeOptions, WordsFault>
    ensures { FindsAsked (HasMake (map string_bytes words.now)) result }
{
    let seed = read_number(alloc, words, &SEED)?;
    let ticks = read_number(alloc, words, &TICKS)?;
    let lanes = read_number(alloc, words, &LANES)?;
    Ok(MakeOptions {
        seed: seed as u32,
        ticks: ticks as u32,
        lanes: lanes as u8,
    })
}

/// The format that the text names.
fn format_named(text: &str) -> Option<Format>
    ensures { MatchOption result ((f : Format) → text.now ≢ format_name f) (λ f. text.now ≡ format_name f) }
{
    match text {
        "qcif" => Some(Format::Qcif),
        "cif" => Some(Format::Cif),
        _ => None,
    }
}

/// The option of a format.
fn read_format(words: &[String], option: &FormatOption) -> Result<FormatOptions, WordsFault>
    ensures { let text = given (map string_bytes words.now) (codes "format") in
        FindsAsked (λ o. IsFormat option.now.otherwise text o.format) result }
{
    let Some(text) = text_of(words, FORMAT_START) else {
        let format = option.otherwise;
        return Ok(FormatOptions { format });
    };
    match format_named(text) {
        Some(format) => Ok(FormatOptions { format }),
        None => Err(WordsFault::Usage),
    }
}

/// Whether each word gives an option of the command, and no two words the same one.
fn are_options_of(command: Command, words: &[String]) -> bool
    ensures { result ≡ are_options (option_names command) (map string_bytes words.now) }
{
    match command {
        Command::Replay => are_options(&[MTU.start, SSRC.start, SEQ.start, STAMP.start], words),
        Command::Check | Command::Decode => are_options(&[FORMAT_START], words),
        Command::History => are_options(&[], words),
        Command::Make => are_options(&[SEED.start, TICKS.start, LANES.start], words),
        Command::Live => are_options(
            &[
                LANE_NAMES.start,
                CHAIR_NAME.start,
                MTU.start,
                SSRC.start,
                SEQ.start,
                STAMP.start,
                TURNS.start,
            ],
            words,
        ),
    }
}

/// The job of a command, by words that give options of it.
fn read_job<'a>(
    alloc: Global,
    command: Command,
    options: &'a [String],
) -> Result<Job<'a>, WordsFault>
    ensures { FindsAsked (IsJobOf command (map string_bytes options.now)) result }
{
    match command {
        Command::Replay => Ok(Job::Replay(read_packets(alloc, options)?)),
        Command::History => Ok(Job::History),
        Command::Check => Ok(Job::Check(read_format(options, &CHECK_FORMAT)?)),
        Command::Decode => Ok(Job::Decode(read_format(options, &DECODE_FORMAT)?)),
        Command::Make => Ok(Job::Make(read_make(alloc, options)?)),
        Command::Live => Ok(Job::Live(read_live(alloc, options)?)),
    }
}

/// The job of a command with these options.
fn read_options<'a>(
    alloc: Global,
    command: Command,
    options: &'a [String],
) -> Result<Job<'a>, WordsFault>
    ensures { FindsAsked (Asks (name_of_command command ∷ map string_bytes options.now)) result }
{
    if !are_options_of(command, options) {
        return Err(WordsFault::Usage);
    }
    read_job(alloc, command, options)
}

/// The job of a command and its options.
fn read_command<'a>(alloc: Global, words: &'a [String]) -> Result<Job<'a>, WordsFault>
    ensures { FindsAsked (Asks (map string_bytes words.now)) result }
{
    match words.split_first() {
        None => Err(WordsFault::Usage),
        Some((name, options)) => match Command::named(name.as_str()) {
            None => Err(WordsFault::Usage),
            Some(command) => read_options(alloc, command, options),
        },
    }
}

/// The job that the words after the program's name ask for: a command, and then its options, words `--name=value` in any
/// order, each at most once. Numbers are one to thirteen digits. `Usage` says that the words ask for no job.
pub fn read_words<'a>(alloc: Global, words: &'a [String]) -> Result<Job<'a>, WordsFault>
    ensures asks { IfOk result (λ job. Asks (map string_bytes words.now) job) }
    ensures ranges { IfOk result IsInRange }
    ensures usage { (job : Job) → Asks (map string_bytes words.now) job → result ≡ Err WordsFault.Usage → ⊥ }
    ensures accepts { (job : Job) → Asks (map string_bytes words.now) job
        → (result ≡ Ok job) ⊎ (result ≡ Err WordsFault.NoMemory) }
    ensures refuses { ((job : Job) → Asks (map string_bytes words.now) job → ⊥)
        → (result ≡ Err WordsFault.Usage) ⊎ (result ≡ Err WordsFault.NoMemory) }
{
    read_command(alloc, words)
}
