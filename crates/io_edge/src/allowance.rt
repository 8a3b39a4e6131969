//! Octets taken from a source within a budget.
ghost use Rattle.std.specs.Prelude.{◌≡◌, ◌<◌, length};
ghost use Rattle.io_edge.specs.Allowance.{Fetches, TakesOctet, unused};
ghost use Rattle.io_edge.specs.Asking.{TakesSome};

use super::{Failed, Source};
use std::marker::Model;

/// Why no octet more was taken. Where two of them hold, the earlier one is told.
#[derive(Debug, Clone, Copy, PartialEq, Eq)]
pub enum Pause {
    /// As many octets are taken as may be.
    Limit,
    /// The source is at its end.
    End,
    /// The source failed.
    Fault,
}

/// How many octets were taken of those that were asked for, and why no more.
#[derive(Debug, Clone, Copy, PartialEq, Eq)]
pub struct Shortfall {
    pub count: usize,
    pub pause: Pause,
}

/// How many octets are taken, and how many may be.
#[derive(Drop)]
pub struct Allowance {
    taken: u64,
    budget: u64,
}

impl Model for Allowance {
    ghost use Rattle.std.specs.Prelude.{◌≤◌};
    ghost use Rattle.io_edge.specs.Allowance.{AllowanceState};

    ghost Value = { AllowanceState };

    ghost view = { λ a. record { taken = a.taken; budget = a.budget } };

    ghost invariant = { λ a. a.taken ≤ a.budget };
}

impl Allowance {
    /// An allowance of `budget` octets, of which none is taken yet.
    pub fn new(budget: u64) -> Allowance
        ensures { result ≡ unused budget }
    {
        Allowance { taken: 0, budget }
    }

    /// The octets taken so far.
    pub fn taken(&self) -> u64
        ensures { result ≡ self.now.taken }
    {
        self.taken
    }

    /// Takes octets into `out` until it is full, or tells how many it took and why no more. The source is never asked for
    /// an octet more than `out` and the budget allow.
    pub fn fetch<S: Source>(&mut self, source: &mut S, out: &mut [u8]) -> Result<(), Shortfall>
        ensures { Fetches result (S.tells source.old) (S.tells source.new) self.old self.new
            out.new }
    {
        prove!(self.taken <= self.budget);
        let mut count = 0;
        while count < out.len() {
            match self.ask(source, &mut out[count..]) {
                Ok(more) => count += more,
                Err(pause) => return Err(Shortfall { count, pause }),
            }
        }
        Ok(())
    }

    /// Takes one octet.
    pub fn octet<S: Source>(&mut self, source: &mut S) -> Result<u8, Pause>
        ensures { TakesOctet result (S.tells source.old) (S.tells source.new) self.old self.new }
    {
        let mut octet = [0];
        match self.fetch(source, &mut octet) {
            Ok(()) => Ok(octet[0]),
            Err(short) => Err(short.pause),
        }
    }

    /// Takes octets into the front of `out` by one read, and gives their number, at least 1.
    fn ask<S: Source>(&mut self, source: &mut S, out: &mut [u8]) -> Result<usize, Pause>
        requires { 0 < length out.old }
        ensures { TakesSome result (S.tells source.old) (S.tells source.new) self.old self.new
            out.new }
    {
        if self.taken == self.budget {
            return Err(Pause::Limit);
        }
        let most = out.len().min((self.budget - self.taken) as usize);
        match source.read(&mut out[..most]) {
            Ok(0) => Err(Pause::End),
            Ok(count) => {
                self.taken += count as u64;
                Ok(count)
            }
            Err(Failed) => Err(Pause::Fault),
        }
    }
}
