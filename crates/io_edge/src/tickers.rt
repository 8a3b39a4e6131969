//! The steps of a conference's ticks: what an object that gives them promises, and one in memory, which fails the calls
//! that it was told to.
ghost use Rattle.std.specs.Prelude.{ℕ, ◌≡◌, All};
ghost use Rattle.io_edge.specs.Calls.{GivesNextStep};
ghost use Rattle.io_edge.specs.Memory.{GivesListed, ticker_tells};
ghost use Rattle.io_edge.specs.Outside.{Input};
ghost use Rattle.io_edge.specs.Ticks.{IsStep};

use super::Failed;
use std::marker::Model;

/// The steps of ticks come from here, in picture times of 1,001 / 30,000 seconds.
pub trait Ticker {
    // The steps that calls will give from here on, where they are told, and how many of its calls failed. That count stays
    // at its last value, 2 ^ 64 - 1.
    ghost tells: { Self → Input };

    /// The next step, from 1 to 31, or None where none is left. A call that fails leaves the steps, and raises the count
    /// of faults; no other call changes it.
    fn next(&mut self) -> Result<Option<u8>, Failed>
        ensures { GivesNextStep (tells self.old) (tells self.new) result };
}

/// Steps in memory. Its calls are numbered from 1.
#[derive(Drop)]
pub struct MemTicker {
    steps: Vec<u8>,
    at: usize,
    fails: Vec<u64>,
    calls: u64,
    faults: u64,
}

impl Model for MemTicker {
    ghost use Rattle.std.specs.Prelude.{◌≤◌, vec_len, drop, All};
    ghost use Rattle.io_edge.specs.Memory.{TickerState};
    ghost use Rattle.io_edge.specs.Ticks.{IsStep};

    ghost Value = { TickerState };

    ghost view = { λ a. record {
      steps = drop a.at a.steps.items;
      fails = a.fails.items;
      calls = a.calls;
      faults = a.faults;
    } };

    ghost invariant = { λ a. (a.at ≤ vec_len a.steps) × All IsStep a.steps.items };
}

impl MemTicker {
    /// A ticker with these steps, which fails the calls whose numbers are listed.
    pub fn new(steps: Vec<u8>, fails: Vec<u64>) -> MemTicker
        requires { All IsStep steps.items }
        ensures { result ≡ record { steps = steps.items; fails = fails.items; calls = 0; faults = 0 } }
    {
        MemTicker {
            steps,
            at: 0,
            fails,
            calls: 0,
            faults: 0,
        }
    }
}

impl Ticker for MemTicker {
    ghost tells = { ticker_tells };

    /// Fails exactly the listed calls. Another call gives the next step.
    fn next(&mut self) -> Result<Option<u8>, Failed>
        ensures step { GivesNextStep (ticker_tells self.old) (ticker_tells self.new) result }
        ensures listed { GivesListed self.old self.new result }
    {
        self.calls = self.calls.saturating_add(1);
        if self.fails.contains(&self.calls) {
            self.faults = self.faults.saturating_add(1);
            return Err(Failed);
        }
        if self.at == self.steps.len() {
            return Ok(None);
        }
        let step = self.steps[self.at];
        self.at += 1;
        Ok(Some(step))
    }
}
