//! A reader of the units of a stream: it takes the packets of a source one by one, and feeds each to a depacketiser.
ghost use Rattle.std.specs.Prelude.{◌≡◌, [], IfOk};
ghost use Rattle.rtp_h261.specs.UnitReader.{ReadsOn, reading_after};

use crate::depack::{Depack, Fed};
use h261_pic::Coded;
use io_edge::Source;
use pel_bits::NoMemory;
use pel_model::Format;
use rtp_wire::{FrameEnd, Framer};
use std::alloc::Global;
use std::marker::Model;

/// What reads the units of one stream. Contracts see its framer and its depacketiser.
#[derive(Drop)]
pub struct UnitReader {
    framer: Framer,
    depack: Depack,
}

impl Model for UnitReader {
    ghost use Rattle.rtp_h261.specs.UnitReader.{UnitReading};

    ghost Value = { UnitReading };

    ghost view = { λ r. record { framer = r.framer; depack = r.depack } };
}

impl UnitReader {
    /// A reader of nothing so far, which may take `budget` octets, frame lengths included. It takes all its memory here;
    /// NoMemory where there is none.
    pub fn reserve(alloc: Global, format: Format, budget: u64) -> Result<UnitReader, NoMemory>
        ensures { IfOk result (λ reader. reader ≡ reading_after format budget []) }
    {
        Ok(UnitReader {
            framer: Framer::reserve(alloc, budget)?,
            depack: Depack::reserve(alloc, format)?,
        })
    }

    /// Takes the next packet, and feeds it: gives what it gives, with the picture of a unit in `into`, or why the source
    /// gives no packet more.
    pub fn next<S: Source>(&mut self, source: &mut S, into: &mut Coded) -> Result<Fed, FrameEnd>
        requires { into.old.format ≡ self.old.depack.format }
        ensures { ReadsOn (S.tells source.old) (S.tells source.new) self.old self.new into.old into.new result }
    {
        match self.framer.next(source) {
            Ok(packet) => Ok(self.depack.feed(packet, into)),
            Err(end) => Err(end),
        }
    }
}
