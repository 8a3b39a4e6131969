//! The pictures of a source that is a bare stream, one by one.
ghost use Rattle.std.specs.Prelude.{◌≡◌, ◌+◌, ◌-◌, ◌*◌, ◌^◌, ◌≤◌, ◌<◌, ◌⊎◌, ℕ, [], ◌++◌, false, None, IfOk, MatchBool, length, take, drop};
ghost use Rattle.bare_stream.specs.Filling.{Fills, TakesOn, HasEnough, HasGivenAll, GivesLast, IsEarlyEnd, IsEndAt, window};
ghost use Rattle.bare_stream.specs.Reading.{CallsBare, Gives};
ghost use Rattle.bare_stream.specs.declared.reader.BareEnd.TheVariants.{Bad};
ghost use Rattle.io_edge.specs.Allowance.{unused};
ghost use Rattle.pel_bits.specs.Bits.{bits};
ghost use Rattle.picture_laws.specs.Laws.{kept_length};

use crate::front::{Front, read_front};
use h261_pic::Coded;
use io_edge::{Allowance, Pause, Source};
use pel_bits::{Bits, NoMemory};
use pel_model::{Fault, Format, Why};
use std::alloc::Global;
use std::marker::Model;

/// Why no picture was given.
#[derive(Clone, Copy, Debug, PartialEq, Eq)]
pub enum BareEnd {
    /// The source is at its end, and all its pictures were given.
    End,
    /// No picture stands there: the first fault is at this bit, counted from the first of the stream.
    Bad { place: u64, why: Why },
    /// The source failed.
    Fault,
    /// As many octets were taken as may be.
    Limit,
}

/// Reads the pictures of a bare stream. It keeps no more of it than twice what a picture can have.
///
/// Contracts see what it took and may take, the bits that it took and has not given, and why it can take no more.
#[derive(Drop)]
pub struct Bare {
    format: Format,
    allowance: Allowance,
    octets: Vec<u8>,
    // the octets that are filled, and the bit of them at which the next picture begins
    filled: usize,
    from: usize,
    pause: Option<Pause>,
    ended: bool,
}

impl Model for Bare {
    ghost use Rattle.std.specs.Prelude.{◌≡◌, ◌*◌, ◌≤◌, take, drop, vec_len};
    ghost use Rattle.bare_stream.specs.Filling.{window};
    ghost use Rattle.bare_stream.specs.Reading.{BareReading};
    ghost use Rattle.pel_bits.specs.Bits.{bits};

    ghost Value = { BareReading };

    ghost view = { λ b. record {
      format = b.format;
      allowance = b.allowance;
      rest = drop b.from (bits (take b.filled b.octets.items));
      pause = b.pause;
      ended = b.ended;
    } };

    ghost invariant = { λ b. (b.from ≤ 8 * b.filled) × (b.filled ≤ vec_len b.octets)
        × (vec_len b.octets ≡ 2 * window b.format) × (b.filled ≤ b.allowance.taken)
        × (b.allowance.taken ≤ b.allowance.budget) };
}

impl Bare {
    /// A reader of nothing so far, which may take `budget` octets. It takes all its memory here; NoMemory where there is none.
    pub fn reserve(alloc: Global, format: Format, budget: u64) -> Result<Bare, NoMemory>
        ensures { IfOk result (λ bare. bare ≡ record {
          format = format;
          allowance = unused budget;
          rest = [];
          pause = None;
          ended = false;
        }) }
    {
        Ok(Bare {
            format,
            allowance: Allowance::new(budget),
            octets: vec![in alloc; 0; 2 * window(format)]?,
            filled: 0,
            from: 0,
            pause: None,
            ended: false,
        })
    }

    /// Gives the next picture in `into`, or says why there is none; after that it may not be called again.
    ///
    /// It reads ahead, no more than it has room for. After a failed read, and when it may take no more, it asks for nothing
    /// more, and gives the pictures of what it took that have another start code behind them.
    pub fn next<S: Source>(&mut self, source: &mut S, into: &mut Coded) -> Result<(), BareEnd>
        requires format { into.old.format ≡ self.old.format }
        requires going { self.old.ended ≡ false }
        requires few { self.old.allowance.budget ≤ 2 ^ 40 }
        ensures { CallsBare (S.tells source.old) (S.tells source.new) self.old self.new into.new result }
    {
        self.fill(source);
        let result = self.give(into);
        self.ended = result.is_err();
        result
    }

    // Takes octets until the longest picture would be there, where that is not so already.
    fn fill<S: Source>(&mut self, source: &mut S)
        ensures { Fills (S.tells source.old) (S.tells source.new) self.old self.new }
    {
        if self.has_enough() {
            return;
        }
        self.take_octets(source);
    }

    // Whether nothing more is needed, or nothing more can be had.
    fn has_enough(&self) -> bool
        ensures within { self.now.allowance.taken ≤ self.now.allowance.budget }
        ensures enough { MatchBool result (HasEnough self.now) (self.now.pause ≡ None) }
    {
        match self.pause {
            Some(_) => true,
            None => self.len() >= longest_kept(self.format) as usize,
        }
    }

    // Moves the octets of the rest to the front of the buffer, and takes octets behind them until it is full. Those that are
    // moved are fewer than those that were given since they were taken, so that over a whole stream no more octets are moved
    // than are taken.
    fn take_octets<S: Source>(&mut self, source: &mut S)
        requires { self.old.pause ≡ None }
        ensures { TakesOn (S.tells source.old) (S.tells source.new) self.old self.new }
    {
        let given = self.from / 8;
        self.octets.copy_within(given..self.filled, 0);
        self.filled -= given;
        self.from %= 8;
        match self
            .allowance
            .fetch(source, &mut self.octets[self.filled..])
        {
            Ok(()) => self.filled = self.octets.len(),
            Err(short) => {
                self.filled += short.count;
                self.pause = Some(short.pause);
            }
        }
    }

    // How many bits are there.
    fn len(&self) -> usize
        ensures { result ≡ length self.now.rest }
    {
        8 * self.filled - self.from
    }

    // Gives the picture in front of the bits that are there, or says why there is none.
    fn give(&mut self, into: &mut Coded) -> Result<(), BareEnd>
        requires format { into.old.format ≡ self.old.format }
        requires enough { HasEnough self.old }
        requires few { self.old.allowance.budget ≤ 2 ^ 40 }
        ensures gives { Gives result self.old self.new self.old.rest into.new }
        ensures kept { self.new ≡ record self.old { rest = self.new.rest } }
        ensures format { into.new.format ≡ self.old.format }
    {
        if self.has_given_all() {
            return Err(BareEnd::End);
        }
        let len = self.len() as u32;
        let bits = Bits::new(&self.octets[..self.filled], self.from as u32, len);
        match read_front(bits, self.format, into) {
            Front::Next(e) => {
                self.from += e as usize;
                Ok(())
            }
            Front::Whole => self.give_last(),
            Front::Bad(fault) => Err(self.end_at(fault)),
        }
    }

    // Whether the source is at its end, and all its bits were given.
    fn has_given_all(&self) -> bool
        ensures { MatchBool result (HasGivenAll self.now) (HasGivenAll self.now → ⊥) }
    {
        match self.pause {
            Some(Pause::End) => self.len() == 0,
            _ => false,
        }
    }

    // All bits that are there are a picture: the last one, unless more may follow.
    fn give_last(&mut self) -> Result<(), BareEnd>
        ensures { GivesLast result self.old self.new }
    {
        if let Some(end) = early_end(self.pause) {
            return Err(end);
        }
        self.from = 8 * self.filled;
        Ok(())
    }

    // The bits that are there are no picture, with this first fault: so it is, unless more octets could change it.
    fn end_at(&self, fault: Fault) -> BareEnd
        requires few { self.now.allowance.budget ≤ 2 ^ 40 }
        requires place { fault.place < 2 ^ 32 }
        ensures { IsEndAt fault result self.now }
    {
        let len = self.len();
        if len < longest_kept(self.format) as usize {
            if let Some(end) = early_end(self.pause) {
                return end;
            }
        }
        self.bad_at(len, fault)
    }

    // The end at a fault of the last `len` bits that were taken.
    fn bad_at(&self, len: usize, fault: Fault) -> BareEnd
        requires len { len ≡ length self.now.rest }
        requires few { self.now.allowance.budget ≤ 2 ^ 40 }
        requires place { fault.place < 2 ^ 32 }
        ensures { result ≡ Bad (8 * self.now.allowance.taken - len + fault.place) fault.why }
    {
        let begin = 8 * self.allowance.taken() - len as u64;
        BareEnd::Bad {
            place: begin + u64::from(fault.place),
            why: fault.why,
        }
    }
}

// How a reader ends whose source gives no more, and is not known to be at its end.
fn early_end(pause: Option<Pause>) -> Option<BareEnd>
    ensures { IsEarlyEnd pause result }
{
    match pause {
        Some(Pause::Fault) => Some(BareEnd::Fault),
        Some(Pause::Limit) => Some(BareEnd::Limit),
        Some(Pause::End) | None => None,
    }
}

// The most bits that decide what stands in front of them.
fn longest_kept(format: Format) -> u32
    ensures { result ≡ kept_length format }
{
    match format {
        Format::Qcif => 65_600,
        Format::Cif => 262_208,
    }
}

// The octets that hold so many bits, wherever in an octet they begin.
fn window(format: Format) -> usize
    ensures { result ≡ window format }
{
    longest_kept(format) as usize / 8 + 1
}
