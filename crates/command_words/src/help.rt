//! What a person is told of a command. Its options come from the table that the words are read by.

ghost use Rattle.std.specs.Prelude.{◌≡◌, ◌≢◌, MatchOption};
ghost use Rattle.command_words.specs.declared.help.Command.{Command};
ghost use Rattle.command_words.specs.Answers.{name_of_command};

use crate::table::{
    CHAIR_NAME, CHECK_FORMAT, DECODE_FORMAT, FORMAT_START, FormatOption, LANE_NAMES, LANES, MTU,
    NameOption, NumberOption, SEED, SEQ, SSRC, STAMP, TICKS, TURNS,
};
use pel_model::Format;
use std::fmt::{Display, Formatter, Result, Write};

/// A command, as a person is told of it: it shows as some lines of text, each ended by LF, with what it reads and writes, its
/// options with their ranges and defaults, and a line that runs it.
#[derive(Clone, Copy, Debug, PartialEq, Eq)]
pub enum Command {
    Replay,
    History,
    Check,
    Decode,
    Make,
    Live,
}

/// The commands, in the order in which a person is told of them.
pub const COMMANDS: [Command; 6] = [
    Command::Replay,
    Command::History,
    Command::Check,
    Command::Decode,
    Command::Make,
    Command::Live,
];

impl Command {
    /// The command of this name.
    pub fn named(name: &str) -> Option<Command>
        ensures { MatchOption result
            ((c : Command) → name.now ≢ name_of_command c)
            (λ c. name.now ≡ name_of_command c) }
    {
        match name {
            "replay" => Some(Command::Replay),
            "history" => Some(Command::History),
            "check" => Some(Command::Check),
            "decode" => Some(Command::Decode),
            "make" => Some(Command::Make),
            "live" => Some(Command::Live),
            _ => None,
        }
    }

    /// Its name, the first word.
    pub fn name(self) -> &'static str
        ensures { result.now ≡ name_of_command self }
    {
        match self {
            Command::Replay => "replay",
            Command::History => "history",
            Command::Check => "check",
            Command::Decode => "decode",
            Command::Make => "make",
            Command::Live => "live",
        }
    }

    // What it does, with what it reads and writes.
    fn about(self) -> &'static str {
        match self {
            Command::Replay =>
                "composes a conference file into framed RTP packets of the composed pictures",
            Command::History => "tells what happens in a conference file, one line for each step",
            Command::Check =>
                "reports the pictures of framed RTP packets, one line for each picture or gap",
            Command::Decode => "decodes the pictures of framed RTP packets into planes of samples",
            Command::Make =>
                "makes a conference file, the same for the same options; it reads nothing",
            Command::Live =>
                "composes lanes of framed RTP packets while they come into framed RTP packets; the lines of standard \
                input are the steps of its ticks, 1 to 31",
        }
    }

    // A line that runs it.
    fn example(self) -> &'static str {
        match self {
            Command::Replay => "ballastkiwi replay --mtu=1200 < call.conf > call.rtp",
            Command::History => "ballastkiwi history < call.conf",
            Command::Check => "ballastkiwi check --format=cif < call.rtp",
            Command::Decode => "ballastkiwi decode < call.rtp > call.yuv",
            Command::Make => "ballastkiwi make --ticks=25 --lanes=2 > call.conf",
            Command::Live =>
                "examples/timer.py --seconds=2 | ballastkiwi live --lanes=<(examples/send_lane.py \
                examples/bars_lane.rtp) --chair=<(echo place 1 0) > live.rtp  (in bash, at the top of the repository)",
        }
    }
}

impl Display for NumberOption {
    fn fmt<W: Write>(&self, f: &mut Formatter<W>) -> Result {
        let start = self.start;
        let about = self.about;
        let low = self.low;
        let high = self.high;
        let otherwise = self.otherwise;
        writeln!(
            f,
            "  {start}N  {about}: {low} to {high}, {otherwise} if not given"
        )
    }
}

impl Display for NameOption {
    fn fmt<W: Write>(&self, f: &mut Formatter<W>) -> Result {
        let start = self.start;
        let value = self.value;
        let about = self.about;
        writeln!(f, "  {start}{value}  {about}; it has to be given")
    }
}

impl Display for FormatOption {
    fn fmt<W: Write>(&self, f: &mut Formatter<W>) -> Result {
        let about = self.about;
        let otherwise = match self.otherwise {
            Format::Qcif => "qcif",
            Format::Cif => "cif",
        };
        writeln!(
            f,
            "  {FORMAT_START}F  {about}: qcif or cif, {otherwise} if not given"
        )
    }
}

impl Display for Command {
    fn fmt<W: Write>(&self, f: &mut Formatter<W>) -> Result {
        let name = self.name();
        let about = self.about();
        let example = self.example();
        writeln!(f, "{name} {about}.")?;
        match self {
            Command::Replay => write!(f, "{MTU}{SSRC}{SEQ}{STAMP}")?,
            Command::History => {},
            Command::Check => write!(f, "{CHECK_FORMAT}")?,
            Command::Decode => write!(f, "{DECODE_FORMAT}")?,
            Command::Make => write!(f, "{SEED}{TICKS}{LANES}")?,
            Command::Live => write!(f, "{LANE_NAMES}{CHAIR_NAME}{MTU}{SSRC}{SEQ}{STAMP}{TURNS}")?,
        }
        writeln!(f, "  example: {example}")
    }
}
