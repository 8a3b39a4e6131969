//! The steps of ticks as lines of a reader, as a user or a timer writes them on standard input.
ghost use Rattle.std.specs.Prelude.{◌≡◌, ◌≤◌, None, IfOk, IsErr};
ghost use Rattle.io_edge.specs.Causes.{HasCause};
ghost use Rattle.io_edge.specs.Ticks.{IsStep};

use super::{Failed, Ticker};
use std::io::Read;
use std::marker::Model;

/// Steps from lines of one or two digits with a value from 1 to 31, each ended by LF or by the end of the reader. A line
/// of another form is a fault, and no octet behind the first wrong one is taken; so is each error of the reader. Hand it
/// a `BufReader`: each octet is a read of its own.
#[derive(Drop)]
pub struct LineTicker<R> {
    reader: R,
    faults: u64,
}

impl<R> Model for LineTicker<R> {
    ghost use Rattle.io_edge.specs.Edge.{EdgeState, edge_code};

    ghost Value = { EdgeState R };

    ghost coded = { edge_code R.code };

    ghost view = { λ a. record { inner = a.reader; faults = a.faults } };
}

impl<R: Read> LineTicker<R> {
    /// A ticker over this reader, with no faults yet.
    pub fn new(r: R) -> LineTicker<R>
        ensures { result ≡ record { inner = r; faults = 0 } }
    {
        LineTicker {
            reader: r,
            faults: 0,
        }
    }

    // The next octet, or None at the end.
    fn octet(&mut self) -> Result<Option<u8>, Failed>
        ensures cause { HasCause self.old.faults self.new.faults result }
    {
        let mut octet = [0];
        match self.reader.read(&mut octet) {
            Ok(0) => Ok(None),
            Ok(_one) => Ok(Some(octet[0])),
            Err(_error) => self.fail(),
        }
    }

    // A fault: of the reader, or of a line.
    fn fail<T>(&mut self) -> Result<T, Failed>
        ensures cause { HasCause self.old.faults self.new.faults result }
        ensures fault { IsErr result }
    {
        self.faults = self.faults.saturating_add(1);
        Err(Failed)
    }

    // The step of a line that began with this digit.
    fn step_from(&mut self, first: u8) -> Result<u8, Failed>
        requires { first ≤ 9 }
        ensures range { IfOk result IsStep }
        ensures cause { HasCause self.old.faults self.new.faults result }
    {
        let value = match self.octet()? {
            None | Some(b'\n') if first > 0 => return Ok(first),
            Some(second @ b'0'..=b'9') => 10 * first + (second - b'0'),
            _other => return self.fail(),
        };
        if value == 0 || value > 31 {
            return self.fail();
        }
        match self.octet()? {
            None | Some(b'\n') => Ok(value),
            Some(_more) => self.fail(),
        }
    }
}

impl<R: Read> Ticker for LineTicker<R> {
    ghost tells = { λ s. record { left = None; faults = s.faults } };

    fn next(&mut self) -> Result<Option<u8>, Failed> {
        match self.octet()? {
            None => Ok(None),
            Some(first @ b'0'..=b'9') => Ok(Some(self.step_from(first - b'0')?)),
            Some(_other) => self.fail(),
        }
    }
}
