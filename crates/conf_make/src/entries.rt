//! The entries of the file, tick by tick.
ghost use Rattle.std.specs.Prelude.{◌≡◌, ◌+◌, ◌*◌, ◌%◌, ◌<◌, ◌==◌, ◌&&◌, nat_lt, map};
ghost use Rattle.conf_file.specs.Header.{HasLanes};
ghost use Rattle.conf_make.specs.Ends.{no_entries};
ghost use Rattle.conf_make.specs.Made.{entry_of, sent, behind_lane, all_sent, behind_lanes, spoken, behind_spoken, tick_entries, behind_tick, all_ticks, placed_lanes, contents, is_grey, picture};
ghost use Rattle.conf_make.specs.Maker.{MakesEntries, MakesFile};
ghost use Rattle.conf_make.specs.Writing.{PutsEntries, CanCountEntries, place_entry, behind_made};

use crate::draws::draw;
use crate::maker::Maker;
use crate::output::{put_entry, put_header, put_order, put_packet};
use crate::pictures::{push_drawn_picture, push_grey_picture};
use io_edge::{Failed, Sink};
use pel_model::{Command, Quad};

/// The steps of a tick.
const STEPS: u8 = 3;

impl Maker {
    /// Writes the header and all entries.
    pub fn write_file<K: Sink>(&mut self, ticks: u32, sink: &mut K) -> Result<(), Failed>
        requires { self.old.tally ≡ no_entries }
        ensures { MakesFile ticks (K.tells sink.old) (K.tells sink.new) self.old self.new result }
    {
        put_header(self.lanes, &mut self.tally, sink)?;
        self.write_entries(ticks, sink)
    }

    /// Writes all entries.
    fn write_entries<K: Sink>(&mut self, ticks: u32, sink: &mut K) -> Result<(), Failed>
        requires { self.old.tally ≡ record { records = 0; octets = 10 } }
        ensures { PutsEntries (5 + 18 * ticks) (map entry_of (contents self.old.state ticks self.old.lanes))
            (K.tells sink.old) (K.tells sink.new) self.old.tally self.new.tally result }
    {
        self.write_places(sink)?;
        self.write_ticks(ticks, sink)?;
        put_entry(b"E", &mut self.tally, sink)
    }

    /// Puts the first lanes into the places.
    fn write_places<K: Sink>(&mut self, sink: &mut K) -> Result<(), Failed>
        requires { CanCountEntries 4 self.old.tally }
        ensures { MakesEntries 4 (placed_lanes self.old.lanes) self.old.state (K.tells sink.old) (K.tells sink.new)
            self.old self.new result }
    {
        self.place(Quad::One, 0, sink)?;
        self.place(Quad::Two, 1, sink)?;
        self.place(Quad::Three, 2, sink)?;
        self.place(Quad::Four, 3, sink)
    }

    /// Puts a lane into a place, if there is such a lane.
    fn place<K: Sink>(&mut self, quad: Quad, lane: u8, sink: &mut K) -> Result<(), Failed>
        requires lane { lane < 4 }
        requires few { CanCountEntries 1 self.old.tally }
        ensures { MakesEntries 1 (place_entry self.old.lanes quad lane) self.old.state (K.tells sink.old)
            (K.tells sink.new) self.old self.new result }
    {
        if lane < self.lanes {
            put_order(Command::Place(quad, lane), &mut self.tally, sink)
        } else {
            Ok(())
        }
    }

    /// Writes so many ticks.
    fn write_ticks<K: Sink>(&mut self, ticks: u32, sink: &mut K) -> Result<(), Failed>
        requires { CanCountEntries (18 * ticks) self.old.tally }
        ensures { PutsEntries (18 * ticks) (map entry_of (all_ticks ticks self.old.lanes 1 self.old.state))
            (K.tells sink.old) (K.tells sink.new) self.old.tally self.new.tally result }
    {
        for before in 0..ticks {
            self.write_tick(before + 1, sink)?;
        }
        Ok(())
    }

    /// Writes what the lanes send at a tick, the speaker, and the tick.
    fn write_tick<K: Sink>(&mut self, tick: u32, sink: &mut K) -> Result<(), Failed>
        requires tick { 0 < tick }
        requires few { CanCountEntries 18 self.old.tally }
        ensures { MakesEntries 18 (tick_entries self.old.lanes tick self.old.state)
            (behind_tick self.old.lanes tick self.old.state) (K.tells sink.old) (K.tells sink.new)
            self.old self.new result }
    {
        self.write_lanes(tick, sink)?;
        self.write_speaker(tick, sink)?;
        put_entry(&[b'T', STEPS], &mut self.tally, sink)
    }

    /// Writes what all lanes send at a tick.
    fn write_lanes<K: Sink>(&mut self, tick: u32, sink: &mut K) -> Result<(), Failed>
        requires tick { 0 < tick }
        requires few { CanCountEntries 16 self.old.tally }
        ensures { MakesEntries 16 (all_sent self.old.lanes tick 0 self.old.state)
            (behind_lanes self.old.lanes tick 0 self.old.state) (K.tells sink.old) (K.tells sink.new)
            self.old self.new result }
    {
        for lane in 0..self.lanes {
            self.write_lane(tick, lane, sink)?;
        }
        Ok(())
    }

    /// Writes what a lane sends at a tick: nothing where its packet is lost.
    fn write_lane<K: Sink>(&mut self, tick: u32, lane: u8, sink: &mut K) -> Result<(), Failed>
        requires tick { 0 < tick }
        requires few { CanCountEntries 1 self.old.tally }
        ensures { MakesEntries 1 (sent tick lane self.old.state) (behind_lane tick lane self.old.state)
            (K.tells sink.old) (K.tells sink.new) self.old self.new result }
    {
        let drawn = draw(&mut self.state);
        if is_lost(tick, drawn) {
            return Ok(());
        }
        self.make_picture(tick, lane);
        put_packet(tick, lane, &self.bits, &mut self.tally, sink)
    }

    /// Makes the picture that a lane sends at a tick.
    fn make_picture(&mut self, tick: u32, lane: u8)
        ensures bits { self.new.bits.list ≡ picture tick lane self.old.state }
        ensures state { self.new.state ≡ behind_made tick lane self.old.state }
        ensures kept { (self.new.lanes ≡ self.old.lanes) × (self.new.tally ≡ self.old.tally) }
    {
        let tr = (3 * u64::from(tick) % 32) as u8;
        if is_grey(tick, lane) {
            push_grey_picture(&mut self.bits, tr);
        } else {
            push_drawn_picture(&mut self.bits, tr, &mut self.state);
        }
    }

    /// At each 25th tick a lane that is drawn becomes the speaker.
    fn write_speaker<K: Sink>(&mut self, tick: u32, sink: &mut K) -> Result<(), Failed>
        requires { CanCountEntries 1 self.old.tally }
        ensures { MakesEntries 1 (spoken self.old.lanes tick self.old.state) (behind_spoken tick self.old.state)
            (K.tells sink.old) (K.tells sink.new) self.old self.new result }
    {
        if tick % 25 != 0 {
            return Ok(());
        }
        let drawn = draw(&mut self.state);
        let lane = lane_of(drawn, self.lanes);
        put_order(Command::Speaker(lane), &mut self.tally, sink)
    }
}

/// Whether the packet of a lane with this draw is lost: one in fifty, and none of the first tick.
fn is_lost(tick: u32, drawn: u32) -> bool
    ensures { result ≡ (nat_lt 1 tick && drawn % 50 == 0) }
{
    tick > 1 && drawn % 50 == 0
}

/// Whether the picture that a lane sends at a tick is grey.
fn is_grey(tick: u32, lane: u8) -> bool
    ensures { result ≡ is_grey tick lane }
{
    tick == 1 || (u64::from(tick) + u64::from(lane)) % 20 == 1
}

/// The lane of a draw.
fn lane_of(drawn: u32, lanes: u8) -> u8
    requires { HasLanes lanes }
    ensures value { result ≡ drawn % lanes }
    ensures short { result < lanes }
{
    (drawn % u32::from(lanes)) as u8
}
