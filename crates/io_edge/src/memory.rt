//! A source and a sink in memory. They fail the calls that they were told to, so that faults can be tried out.
ghost use Rattle.std.specs.Prelude.{◌≡◌, ◌<◌, [], length, IfOk};
ghost use Rattle.io_edge.specs.Calls.{ReadsPiece, WritesPiece};
ghost use Rattle.io_edge.specs.Memory.{GivesPiece, TakesPiece, source_tells, sink_tells};

use super::{Failed, Sink, Source};
use pel_bits::NoMemory;
use std::alloc::Global;
use std::marker::Model;

/// A source of octets in memory. Its calls are numbered from 1.
#[derive(Drop)]
pub struct MemSource {
    bytes: Vec<u8>,
    at: usize,
    fails: Vec<u64>,
    piece: usize,
    calls: u64,
    faults: u64,
}

impl Model for MemSource {
    ghost use Rattle.std.specs.Prelude.{◌<◌, ◌≤◌, vec_len, drop};
    ghost use Rattle.io_edge.specs.Memory.{SourceState};

    ghost Value = { SourceState };

    ghost view = { λ a. record {
      left = drop a.at a.bytes.items;
      fails = a.fails.items;
      piece = a.piece;
      calls = a.calls;
      faults = a.faults;
    } };

    ghost invariant = { λ a. (a.at ≤ vec_len a.bytes) × (0 < a.piece) };
}

impl MemSource {
    /// A source of these octets, which fails the calls whose numbers are listed and gives at most `piece` octets a
    /// call.
    pub fn new(bytes: Vec<u8>, fails: Vec<u64>, piece: usize) -> MemSource
        requires { 0 < piece }
        ensures { result ≡ record {
          left = bytes.items;
          fails = fails.items;
          piece = piece;
          calls = 0;
          faults = 0;
        } }
    {
        MemSource {
            bytes,
            at: 0,
            fails,
            piece,
            calls: 0,
            faults: 0,
        }
    }

    // The same source with no faults counted.
    pub(crate) fn anew(self) -> MemSource
        ensures { result ≡ record self { faults = 0 } }
    {
        let mut source = self;
        source.faults = 0;
        source
    }

    /// The octets that it has not given yet.
    pub fn left(&self) -> &[u8]
        ensures { result.now ≡ self.now.left }
    {
        &self.bytes[self.at..]
    }
}

impl Source for MemSource {
    ghost tells = { source_tells };

    /// Fails exactly the listed calls. Another call gives as many octets as it may, the buffer can take and are
    /// left.
    fn read(&mut self, buf: &mut [u8]) -> Result<usize, Failed>
        requires { 0 < length buf.old }
        ensures read { ReadsPiece (source_tells self.old) (source_tells self.new) buf.new result }
        ensures piece { GivesPiece self.old self.new buf.old buf.new result }
    {
        self.calls = self.calls.saturating_add(1);
        if self.fails.contains(&self.calls) {
            self.faults = self.faults.saturating_add(1);
            return Err(Failed);
        }
        let count = buf.len().min(self.piece).min(self.bytes.len() - self.at);
        buf[..count].copy_from_slice(&self.bytes[self.at..self.at + count]);
        self.at += count;
        Ok(count)
    }
}

/// A sink in memory, with room for a number of octets. Its calls are numbered from 1.
#[derive(Drop)]
pub struct MemSink {
    bytes: Vec<u8>,
    room: usize,
    fails: Vec<u64>,
    piece: usize,
    calls: u64,
    faults: u64,
}

impl Model for MemSink {
    ghost use Rattle.std.specs.Prelude.{◌<◌, ◌≤◌, vec_len, vec_capacity};
    ghost use Rattle.io_edge.specs.Memory.{SinkState};

    ghost Value = { SinkState };

    ghost view = { λ a. record {
      written = a.bytes.items;
      room = a.room;
      fails = a.fails.items;
      piece = a.piece;
      calls = a.calls;
      faults = a.faults;
    } };

    ghost invariant = { λ a. (vec_len a.bytes ≤ a.room) × (a.room ≤ vec_capacity a.bytes)
        × (0 < a.piece) };
}

impl MemSink {
    /// An empty sink with room for that many octets, which fails the calls whose numbers are listed and every call
    /// that finds it full, and takes at most `piece` octets a call.
    pub fn reserve(
        alloc: Global,
        room: usize,
        fails: Vec<u64>,
        piece: usize,
    ) -> Result<MemSink, NoMemory>
        requires { 0 < piece }
        ensures { IfOk result (λ sink. sink ≡ record {
          written = [];
          room = room;
          fails = fails.items;
          piece = piece;
          calls = 0;
          faults = 0;
        }) }
    {
        let bytes = Vec::with_capacity(alloc, room)?;
        Ok(MemSink {
            bytes,
            room,
            fails,
            piece,
            calls: 0,
            faults: 0,
        })
    }

    /// The octets that it was given.
    pub fn bytes(&self) -> &[u8]
        ensures { result.now ≡ self.now.written }
    {
        self.bytes.as_slice()
    }
}

impl Sink for MemSink {
    ghost tells = { sink_tells };

    /// Fails exactly the listed calls and those that find it full. Another call takes as many octets as it may and
    /// there is room for.
    fn write(&mut self, piece: &[u8]) -> Result<usize, Failed>
        requires { 0 < length piece.now }
        ensures write { WritesPiece (sink_tells self.old) (sink_tells self.new) piece.now result }
        ensures piece { TakesPiece self.old self.new piece.now result }
    {
        self.calls = self.calls.saturating_add(1);
        let free = self.room - self.bytes.len();
        if self.fails.contains(&self.calls) || free == 0 {
            self.faults = self.faults.saturating_add(1);
            return Err(Failed);
        }
        let count = piece.len().min(self.piece).min(free);
        let Ok(()) = self.bytes.extend_from_slice(&piece[..count]) else {
            unreachable!()
        };
        Ok(count)
    }
}
