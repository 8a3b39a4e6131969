//! A stream of packets decoded: the planes after each of its pictures.

ghost use Rattle.std.specs.Prelude.{◌^◌, ◌≤◌, refl};
ghost use Rattle.io_edge.specs.Outside.{outside};
ghost use Rattle.ref_decode.specs.Planes.{planes_duty, planes_shown};
ghost use Rattle.rtp_h261.specs.UnitEnds.{ReadsUnits};

use crate::sides::sample_count;
use crate::store::Store;
use h261_pic::Coded;
use io_edge::{Failed, Sink, Source};
use pel_bits::NoMemory;
use pel_model::{Fault, Format};
use rtp_h261::{Teller, UnitEnd, nothing_read, read_units};
use std::alloc::Global;

impl Teller for Store {
    ghost duty = { planes_duty };

    /// Missing packets leave the frame as it is.
    fn loss<K: Sink>(&mut self, _number: u64, _sink: &mut K) -> Result<u64, Failed> {
        Ok(0)
    }

    /// Shows the picture and writes the planes.
    fn picture<K: Sink>(
        &mut self,
        _number: u64,
        picture: &Coded,
        sink: &mut K,
    ) -> Result<u64, Failed> {
        self.show(picture);
        self.write_planes(sink)?;
        Ok(sample_count(picture.format()) as u64)
    }

    /// A unit that is no picture leaves the frame as it is.
    fn gap<K: Sink>(&mut self, _number: u64, _fault: Fault, _sink: &mut K) -> Result<u64, Failed> {
        Ok(0)
    }

    ghost nothing_more = { λ s number. refl };
}

/// Decodes the pictures of `format` in framed packets from `source`, `budget` octets of them at most (2^40 or less), and
/// writes to `sink` after each picture the planes that are shown, luminance, CB and CR: 38,016 octets (QCIF) or 152,064
/// (CIF). At first a black frame is shown, whose samples are 0. A loss or a unit that is no picture writes nothing. It takes
/// all its memory before it reads.
///
/// The result has the pictures, the losses and units that are no pictures, and the octets of whole sets of planes, and
/// says why the reading stopped. Where the sink fails, a front of the planes was written.
pub fn decode_frames<S: Source, K: Sink>(
    alloc: Global,
    format: Format,
    source: &mut S,
    sink: &mut K,
    budget: u64,
) -> UnitEnd
    requires { budget ≤ 2 ^ 40 }
    ensures { ReadsUnits format budget (planes_shown format) (outside (S.tells source.old) (K.tells sink.old))
        (outside (S.tells source.new) (K.tells sink.new)) result }
{
    match Store::reserve(alloc, format) {
        Ok(mut store) => read_units(alloc, format, &mut store, source, sink, budget),
        Err(NoMemory) => nothing_read(),
    }
}
