//! The maker, and what it gives in the end.
ghost use Rattle.std.specs.Prelude.{◌≡◌, IfOk};
ghost use Rattle.conf_file.specs.Header.{HasLanes};
ghost use Rattle.conf_make.specs.Ends.{IsMakeRun, no_entries};
ghost use Rattle.conf_make.specs.Writing.{most_bits, written_stop};

use crate::output::MakeTally;
use io_edge::{Failed, Sink};
use pel_bits::{BitBuf, NoMemory};
use std::alloc::Global;

/// The most bits of a picture, those of a grey one.
const MOST_BITS: u32 = 6545;

/// Why the making stopped.
#[derive(Clone, Copy, Debug, PartialEq, Eq)]
pub enum MakeStop {
    /// The whole file was written.
    Done,
    /// The sink failed.
    WriteFault,
    /// There was no memory to begin.
    NoMemory,
}

/// Why the making stopped, and what was written whole.
#[derive(Clone, Copy, Debug, PartialEq, Eq)]
pub struct MakeEnd {
    pub stop: MakeStop,
    pub tally: MakeTally,
}

/// Writes a conference file of 1 to 16 lanes with so many ticks, which the seed decides: lanes 0 to 3 stand in the four
/// places; at each tick each lane sends a picture in a packet, or loses it; at each 25th one becomes the speaker. It takes all
/// its memory before it writes.
pub fn make<K: Sink>(alloc: Global, seed: u64, ticks: u32, lanes: u8, sink: &mut K) -> MakeEnd
    requires { HasLanes lanes }
    ensures { IsMakeRun seed ticks lanes (K.tells sink.old) (K.tells sink.new) result }
{
    match reserve(alloc, seed, lanes) {
        Ok(mut maker) => make_all(&mut maker, ticks, sink),
        Err(NoMemory) => MakeEnd {
            stop: MakeStop::NoMemory,
            tally: no_entries(),
        },
    }
}

/// Makes the conference of so many lanes: the generator's state, the bits of a picture, and what was written whole.
#[derive(Drop)]
pub struct Maker {
    pub lanes: u8,
    pub state: u64,
    pub bits: BitBuf,
    pub tally: MakeTally,
    ghost fits: { HasLanes lanes },
    ghost room: { bits.capacity ≡ most_bits },
}

/// A maker that has written nothing.
fn reserve(alloc: Global, seed: u64, lanes: u8) -> Result<Maker, NoMemory>
    requires { HasLanes lanes }
    ensures lanes { IfOk result (λ maker. maker.lanes ≡ lanes) }
    ensures seed { IfOk result (λ maker. maker.state ≡ seed) }
    ensures nothing { IfOk result (λ maker. maker.tally ≡ no_entries) }
{
    let bits = BitBuf::with_capacity(alloc, MOST_BITS)?;
    Ok(Maker {
        lanes,
        state: seed,
        bits,
        tally: no_entries(),
    })
}

/// Nothing was written whole.
fn no_entries() -> MakeTally
    ensures { result ≡ no_entries }
{
    MakeTally {
        records: 0,
        octets: 0,
    }
}

/// Writes the file.
fn make_all<K: Sink>(maker: &mut Maker, ticks: u32, sink: &mut K) -> MakeEnd
    requires { maker.old.tally ≡ no_entries }
    ensures { IsMakeRun maker.old.state ticks maker.old.lanes (K.tells sink.old) (K.tells sink.new) result }
{
    let stop = written_stop(maker.write_file(ticks, sink));
    MakeEnd {
        stop,
        tally: maker.tally,
    }
}

/// Why the making stopped, where it began.
fn written_stop(written: Result<(), Failed>) -> MakeStop
    ensures { result ≡ written_stop written }
{
    match written {
        Ok(()) => MakeStop::Done,
        Err(Failed) => MakeStop::WriteFault,
    }
}
