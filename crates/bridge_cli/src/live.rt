//! The call `live`: a conference over what its words name, and the line that tells how it ended.

ghost use Rattle.std.specs.Prelude.{◌≡◌, ◌⊎◌, [], ◌∷◌, ◌++◌, length, map, string_bytes, List, MatchResult};
ghost use Rattle.command_words.specs.Asks.{Asks, IsInRange};
ghost use Rattle.command_words.specs.Options.{Text};
ghost use Rattle.command_words.specs.declared.job.Job.TheVariants.{Live};
ghost use Rattle.io_edge.specs.Directory.{Directory};
ghost use Rattle.bridge_cli.specs.Opening.{ReachesAll};
ghost use Rattle.bridge_cli.specs.declared.status.Status.TheVariants.{NoMemory, Usage};
ghost use Rattle.bridge_cli.specs.Lives.{AskNoLive, Comes, Lives, names_of};
ghost use Rattle.bridge_cli.specs.Answers.{Retells};

use crate::notes::{failed, note, tally_line, told};
use crate::opening::{Sources, open_all};
use crate::settings::settings_of;
use crate::status::Status;
use bridge_live::{ServeEnd, Unserved, serve};
use command_words::{Job, LiveOptions, read_words};
use io_edge::{Opener, Sink, Source, Ticker};
use std::alloc::Global;
use std::sync::Wait;
use std::thread::Threads;

/// How a call of `live` ended.
#[derive(Drop)]
pub enum LiveEnd<S, C, K> {
    /// No conference was held. The ticker and the sink are as they were handed in.
    Refused {
        status: Status,
        ticker: C,
        sink: K,
    },
    /// A conference was held; how each of its workers ended stands in `end`.
    Served {
        status: Status,
        end: ServeEnd<S, C, K>,
    },
}

/// Holds the live conference that the words after the program's name ask for, and writes one line to `notes` that tells how it
/// ended, with what it counted where it is done. It opens the lanes that they name in `house`, in order, and then the chair;
/// the lanes are framed RTP packets, the chair's lines are commands, and `ticker` gives the steps of the ticks, whose pictures
/// are written to `sink` as framed RTP packets. It is done where the ticker ended, however the lanes and the chair did.
pub fn live<P: Opener, C: Ticker + Send, K: Sink + Send, N: Sink>(
    rt: &(impl Threads + Wait + Sync),
    alloc: Global,
    words: &[String],
    house: &mut P,
    ticker: C,
    sink: K,
    notes: &mut N,
) -> LiveEnd<P::Src, C, K>
where
    P::Src: Send + Drop,
    ensures lives { Lives P.Src.tells C.tells K.tells (map string_bytes words.now)
        (P.tells house.old) (P.tells house.new) ticker sink (N.tells notes.old) (N.tells notes.new) result }
{
    let end = obey(rt, alloc, words, house, ticker, sink);
    tell(end, notes)
}

/// Holds the conference that the words ask for, if they do.
fn obey<P: Opener, C: Ticker + Send, K: Sink + Send>(
    rt: &(impl Threads + Wait + Sync),
    alloc: Global,
    words: &[String],
    house: &mut P,
    ticker: C,
    sink: K,
) -> LiveEnd<P::Src, C, K>
where
    P::Src: Send + Drop,
    ensures { Comes P.Src.tells C.tells K.tells (map string_bytes words.now) (P.tells house.old) (P.tells house.new)
        ticker sink result }
{
    let options = match options_of(alloc, words) {
        Ok(options) => options,
        Err(status) => {
            return LiveEnd::Refused {
                status,
                ticker,
                sink,
            };
        }
    };
    match open_all(alloc, &options, house) {
        Ok(sources) => hold(rt, alloc, &options, sources, ticker, sink),
        Err(status) => LiveEnd::Refused {
            status,
            ticker,
            sink,
        },
    }
}

/// The options of the live conference that the words ask for, if they do.
fn options_of<'a>(alloc: Global, words: &'a [String]) -> Result<LiveOptions<'a>, Status>
    ensures { let texts = map string_bytes words.now in
        MatchResult result (λ o. Asks texts (Live o) × IsInRange (Live o))
        (λ s. (s ≡ NoMemory) ⊎ ((s ≡ Usage) × AskNoLive texts)) }
{
    match read_words(alloc, words) {
        Ok(Job::Live(options)) => Ok(options),
        Ok(_other) => Err(Status::Usage),
        Err(fault) => Err(Status::of_words(fault)),
    }
}

/// Holds the conference over these sources.
fn hold<S: Source + Send + Drop, C: Ticker + Send, K: Sink + Send>(
    rt: &(impl Threads + Wait + Sync),
    alloc: Global,
    options: &LiveOptions<'_>,
    sources: Sources<S>,
    ticker: C,
    sink: K,
) -> LiveEnd<S, C, K>
    requires range { IsInRange (Live options.now) }
    requires lanes { length sources.lanes.items ≡ length options.now.lanes }
    ensures { (words : List Text) (before after : Directory) → Asks words (Live options.now)
        → ReachesAll (names_of options.now) (map S.tells sources.lanes.items ++ S.tells sources.chair ∷ []) before after
        → Comes S.tells C.tells K.tells words before after ticker sink result }
{
    let Sources { lanes, chair } = sources;
    let settings = settings_of(&options.packets);
    match serve(
        rt,
        alloc,
        lanes,
        chair,
        ticker,
        sink,
        settings,
        options.turns,
    ) {
        Ok(end) => LiveEnd::Served {
            status: Status::of_mixer(end.stop),
            end,
        },
        Err(
            Unserved {
                lanes: _lanes,
                chair: _chair,
                ticker,
                sink,
            },
        ) => LiveEnd::Refused {
            status: Status::NoMemory,
            ticker,
            sink,
        },
    }
}

/// Writes the line that tells of the end to `notes`, and puts the status of the call into it.
fn tell<S, C, K, N: Sink>(end: LiveEnd<S, C, K>, notes: &mut N) -> LiveEnd<S, C, K>
    ensures { Retells end result (N.tells notes.old) (N.tells notes.new) }
{
    match end {
        LiveEnd::Refused {
            status,
            ticker,
            sink,
        } => LiveEnd::Refused {
            status: note(&failed(status), notes),
            ticker,
            sink,
        },
        LiveEnd::Served { status: _, end } => LiveEnd::Served {
            status: note(
                &told(Status::of_mixer(end.stop), tally_line(&end.tally)),
                notes,
            ),
            end,
        },
    }
}
