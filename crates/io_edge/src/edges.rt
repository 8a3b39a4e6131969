//! What a source and a sink of octets promise.
ghost use Rattle.std.specs.Prelude.{ℕ, ◌<◌, length};
ghost use Rattle.io_edge.specs.Calls.{ReadsPiece, WritesPiece};
ghost use Rattle.io_edge.specs.Outside.{Input, Output};

use thiserror::Error;

/// An object of the outside failed. Its count of faults tells that it did.
#[derive(Debug, Clone, Copy, PartialEq, Eq, Error)]
#[error("the outside failed")]
pub struct Failed;

/// Octets come from here, in any pieces.
pub trait Source {
    // The octets that reads will give from here on, where they are told, and how many of its calls failed. That count stays
    // at its last value, 2 ^ 64 - 1.
    ghost tells: { Self → Input };

    /// Reads into the front of `buf`, and gives the number of octets read, 0 only at the end. A call that fails
    /// takes nothing, and raises the count of faults; no other call changes it.
    fn read(&mut self, buf: &mut [u8]) -> Result<usize, Failed>
        requires { 0 < length buf.old }
        ensures { ReadsPiece (tells self.old) (tells self.new) buf.new result };
}

/// Octets go here, in any pieces.
pub trait Sink {
    // The octets that it was given, where they are told, and how many of its calls failed. That count stays at its last
    // value, 2 ^ 64 - 1.
    ghost tells: { Self → Output };

    /// Writes the front of `piece`, and gives the number of octets written, at least 1. A call that fails writes
    /// nothing, and raises the count of faults; no other call changes it.
    fn write(&mut self, piece: &[u8]) -> Result<usize, Failed>
        requires { 0 < length piece.now }
        ensures { WritesPiece (tells self.old) (tells self.new) piece.now result };
}
