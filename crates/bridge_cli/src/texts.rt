//! What a person is told of the program as a whole.

use command_words::COMMANDS;
use std::fmt::{Display, Formatter, Result, Write};

pub const VERSION: &str = "ballastkiwi 0.1.0";

pub const USAGE: &str = "\
Usage: ballastkiwi replay [--NAME=VALUE ..] < CONFERENCE > PACKETS
       ballastkiwi history < CONFERENCE > LINES
       ballastkiwi check [--format=FORMAT] < PACKETS > REPORT
       ballastkiwi decode [--format=FORMAT] < PACKETS > PLANES
       ballastkiwi make [--NAME=VALUE ..] > CONFERENCE
       ballastkiwi live --lanes=FILE,.. --chair=FILE [--NAME=VALUE ..] < STEPS > PACKETS
       ballastkiwi [COMMAND] --help | --version";

const ABOUT: &str = "\
A continuous-presence bridge for H.261 in the coded domain: it shows up to four conferees in one picture, made from
their own coded bits.";

const EXAMPLE: &str = "\
Example, at the top of the repository:
       ballastkiwi replay < examples/four_faces.conf > composed.rtp
       examples/h261_of_frames.py < composed.rtp > composed.h261";

const STATUS: &str = "\
Status, with the line on standard error; what is the matter stands behind the line, where more can be said:
   0   done, and what was counted
   2   fault usage: the words ask for no job
   3   fault read: the input failed; of live, the steps on standard input
   4   fault write: the output failed
   5   fault cut at PLACE: the input ends too early
   6   fault record at PLACE: an entry of a conference file is at fault
   7   fault limit: the input has more than 2^40 octets; of live, all turns are made
   8   fault open LANE: the file of this lane cannot be opened, 0 the first; 16 is the chair's
   9   fault memory: there is not the memory to begin
  10   done, but the line could not be written";

/// The help of the program. It shows as lines of text, each ended by LF.
#[derive(Clone, Copy)]
pub struct Help;

impl Display for Help {
    fn fmt<W: Write>(&self, f: &mut Formatter<W>) -> Result {
        writeln!(f, "{ABOUT}\n\n{USAGE}\n")?;
        for command in COMMANDS {
            writeln!(f, "{command}")?;
        }
        writeln!(f, "{EXAMPLE}\n\n{STATUS}")
    }
}
