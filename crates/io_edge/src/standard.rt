//! The edge to `std::io`: a reader as a source, a writer as a sink, with a count of their errors. Of the octets they
//! tell what the reader or the writer tells, which is nothing at a terminal, a pipe or a file.
ghost use Rattle.std.specs.Prelude.{◌≡◌, ◌<◌, length};
ghost use Rattle.std.specs.Io.KnownBytes.{Keeps};
ghost use Rattle.io_edge.specs.Causes.{HasCause};

use super::{Failed, Sink, Source};
use std::io::{Read, Write};
use std::marker::Model;

/// A reader of `std::io` as a source. Each error of the reader is a fault. Hand it a `BufReader`: a plain reader of
/// the system is a system call for each read.
#[derive(Drop)]
pub struct ReadEdge<R> {
    reader: R,
    faults: u64,
}

impl<R> Model for ReadEdge<R> {
    ghost use Rattle.io_edge.specs.Edge.{EdgeState, edge_code};

    ghost Value = { EdgeState R };

    ghost coded = { edge_code R.code };

    ghost view = { λ a. record { inner = a.reader; faults = a.faults } };
}

impl<R: Read> ReadEdge<R> {
    /// A source over this reader, with no faults yet.
    pub fn new(r: R) -> ReadEdge<R>
        ensures { result ≡ record { inner = r; faults = 0 } }
    {
        ReadEdge {
            reader: r,
            faults: 0,
        }
    }
}

impl<R: Read> Source for ReadEdge<R> {
    ghost tells = { λ s. record { left = R.remaining s.inner; faults = s.faults } };

    fn read(&mut self, buf: &mut [u8]) -> Result<usize, Failed> {
        match self.reader.read(buf) {
            Ok(count) => Ok(count),
            Err(_error) => {
                self.faults = self.faults.saturating_add(1);
                Err(Failed)
            }
        }
    }
}

/// A writer of `std::io` as a sink. Each error of the writer is a fault, and so is a write that takes nothing. Hand
/// it a `BufWriter`, and flush it before the program ends.
#[derive(Drop)]
pub struct WriteEdge<W> {
    writer: W,
    faults: u64,
}

impl<W> Model for WriteEdge<W> {
    ghost use Rattle.io_edge.specs.Edge.{EdgeState, edge_code};

    ghost Value = { EdgeState W };

    ghost coded = { edge_code W.code };

    ghost view = { λ a. record { inner = a.writer; faults = a.faults } };
}

impl<W: Write> WriteEdge<W> {
    /// A sink over this writer, with no faults yet.
    pub fn new(w: W) -> WriteEdge<W>
        ensures { result ≡ record { inner = w; faults = 0 } }
    {
        WriteEdge {
            writer: w,
            faults: 0,
        }
    }

    /// Hands on what the writer holds back.
    pub fn flush(&mut self) -> Result<(), Failed>
        ensures bytes { Keeps (W.contents self.old.inner) (W.contents self.new.inner) }
        ensures cause { HasCause self.old.faults self.new.faults result }
    {
        match self.writer.flush() {
            Ok(()) => Ok(()),
            Err(_error) => {
                self.faults = self.faults.saturating_add(1);
                Err(Failed)
            }
        }
    }
}

impl<W: Write> Sink for WriteEdge<W> {
    ghost tells = { λ s. record { written = W.contents s.inner; faults = s.faults } };

    fn write(&mut self, piece: &[u8]) -> Result<usize, Failed> {
        match self.writer.write(piece) {
            Ok(count) if count > 0 => Ok(count),
            _nothing_or_error => {
                self.faults = self.faults.saturating_add(1);
                Err(Failed)
            }
        }
    }
}
