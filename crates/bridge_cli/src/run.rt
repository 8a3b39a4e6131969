//! The top call: the words that ask for a job, the job itself over any source and any sinks, and the line that tells how it
//! ended.

ghost use Rattle.std.specs.Prelude.{map, string_bytes};
ghost use Rattle.io_edge.specs.Outside.{outside};
ghost use Rattle.bridge_cli.specs.Runs.{Runs};
ghost use Rattle.bridge_cli.specs.Answers.{DoesAsked};

use crate::notes::{
    Ended, failed, history_line, made_line, note, planes_line, report_line, tally_line, told,
};
use crate::settings::settings_of;
use crate::status::Status;
use bridge_replay::{history, replay};
use command_words::{Job, read_words};
use conf_make::make;
use io_edge::{Sink, Source};
use pic_report::check_frames;
use ref_decode::decode_frames;
use std::alloc::Global;

/// The most octets that are read, 2^40.
const OCTET_LIMIT: u64 = 1 << 40;

/// Does the job that the words after the program's name ask for, and writes one line to `notes` that tells how it
/// ended, with what it counted where it is done. `replay` reads a conference file from `input` and writes framed RTP
/// packets to `output`, and `history` reads one and writes the lines of its history; `check` and `decode` read framed RTP packets, and write a report of their pictures or the
/// planes that are shown after each; `make` reads nothing and writes a conference file. Where the words ask for none of
/// these, or there is not the memory to begin, input and output stay as they are.
pub fn run<S: Source, K: Sink, N: Sink>(
    alloc: Global,
    words: &[String],
    input: &mut S,
    output: &mut K,
    notes: &mut N,
) -> Status
    ensures runs { Runs (map string_bytes words.now) (outside (S.tells input.old) (K.tells output.old))
        (outside (S.tells input.new) (K.tells output.new)) (N.tells notes.old) (N.tells notes.new) result }
{
    let ended = obey(alloc, words, input, output);
    note(&ended, notes)
}

/// Does the job that the words ask for, if they do.
fn obey<S: Source, K: Sink>(alloc: Global, words: &[String], input: &mut S, output: &mut K) -> Ended
    ensures { DoesAsked (map string_bytes words.now) (outside (S.tells input.old) (K.tells output.old))
        (outside (S.tells input.new) (K.tells output.new)) result.status result.line.bytes }
{
    match read_words(alloc, words) {
        Ok(Job::Replay(options)) => {
            let set = settings_of(&options);
            let end = replay(alloc, input, output, set, OCTET_LIMIT);
            told(Status::of_replay(end.stop), tally_line(&end.tally))
        }
        Ok(Job::History) => {
            let end = history(alloc, input, output, OCTET_LIMIT);
            told(Status::of_replay(end.stop), history_line(&end.tally))
        }
        Ok(Job::Check(options)) => {
            let end = check_frames(alloc, options.format, input, output, OCTET_LIMIT);
            told(Status::of_units(end.stop), report_line(&end.tally))
        }
        Ok(Job::Decode(options)) => {
            let end = decode_frames(alloc, options.format, input, output, OCTET_LIMIT);
            told(Status::of_units(end.stop), planes_line(&end.tally))
        }
        Ok(Job::Make(options)) => {
            let seed = u64::from(options.seed);
            let end = make(alloc, seed, options.ticks, options.lanes, output);
            let line = made_line(options.ticks, &end.tally);
            told(Status::of_make(end.stop), line)
        }
        Ok(Job::Live(_options)) => failed(Status::Usage),
        Err(fault) => failed(Status::of_words(fault)),
    }
}
