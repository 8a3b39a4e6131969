//! The options of `live`.

ghost use Rattle.std.specs.Prelude.{◌≡◌, ◌<◌, ◌≤◌, ◌⊎◌, ◌∷◌, ◌++◌, List, [], Some, length, map, codes, string_bytes, MatchResult};
ghost use Rattle.command_words.specs.declared.fault.WordsFault.TheVariants.{Usage};
ghost use Rattle.command_words.specs.Options.{Text};
ghost use Rattle.command_words.specs.Names.{name, names, names_in};
ghost use Rattle.command_words.specs.Asks.{HasLive};
ghost use Rattle.command_words.specs.Answers.{FindsAsked};

use crate::fault::WordsFault;
use crate::given::text_of;
use crate::job::LiveOptions;
use crate::names::{Name, Names};
use crate::number::read_number;
use crate::reader::read_packets;
use crate::table::{CHAIR_NAME, LANE_NAMES, MOST_LANES, TURNS};
use std::alloc::Global;

/// Adds a name. It may not be empty, and there may not be sixteen yet.
fn push_name<'a>(names: &mut Vec<&'a str>, name: &'a str) -> Result<(), WordsFault>
    ensures { MatchResult result
        (λ _. (0 < length name.entry.now) × (length names.old.items < 16)
        × (map (λ n. n.now) names.new.items ≡ map (λ n. n.now) names.old.items ++ name.entry.now ∷ []))
        (λ e. e ≡ Usage → (length name.entry.now ≡ 0) ⊎ (16 ≤ length names.old.items)) }
{
    if name.is_empty() || MOST_LANES <= names.len() {
        return Err(WordsFault::Usage);
    }
    match names.push(name) {
        Ok(()) => Ok(()),
        Err(_failed) => Err(WordsFault::NoMemory),
    }
}

/// The names between the commas of a text.
pub fn names_between<'a>(alloc: Global, text: &'a str) -> Result<Names<'a>, WordsFault>
    ensures { FindsAsked (λ (read : List Text). names_in (Some text.entry.now) ≡ Some read) result }
{
    let mut names = Vec::new(alloc);
    let mut rest = text;
    while let Some((name, more)) = rest.split_once(',') {
        push_name(&mut names, name)?;
        rest = more;
    }
    push_name(&mut names, rest)?;
    Ok(Names::new(names))
}

/// The names of the lanes.
fn read_lanes<'a>(alloc: Global, words: &'a [String]) -> Result<Names<'a>, WordsFault>
    ensures { FindsAsked (λ (read : List Text). names (map string_bytes words.now) (codes "lanes") ≡ Some read) result }
{
    match text_of(words, LANE_NAMES.start) {
        Some(text) => names_between(alloc, text),
        None => Err(WordsFault::Usage),
    }
}

/// The name of the chair.
fn read_chair<'a>(words: &'a [String]) -> Result<Name<'a>, WordsFault>
    ensures { FindsAsked (λ (read : Text). name (map string_bytes words.now) (codes "chair") ≡ Some read) result }
{
    match text_of(words, CHAIR_NAME.start) {
        Some(text) if !text.is_empty() => Ok(Name::new(text)),
        _ => Err(WordsFault::Usage),
    }
}

/// The options of `live`. Other words may stand among them.
pub fn read_live<'a>(alloc: Global, words: &'a [String]) -> Result<LiveOptions<'a>, WordsFault>
    ensures { FindsAsked (HasLive (map string_bytes words.now)) result }
{
    let lanes = read_lanes(alloc, words)?;
    let chair = read_chair(words)?;
    let packets = read_packets(alloc, words)?;
    let turns = read_number(alloc, words, &TURNS)?;
    Ok(LiveOptions {
        lanes,
        chair,
        packets,
        turns,
    })
}
