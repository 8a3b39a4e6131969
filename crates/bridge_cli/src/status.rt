//! How a run ends.

ghost use Rattle.std.specs.Prelude.{◌≡◌};
ghost use Rattle.bridge_cli.specs.Runs.{after_flush, loses_output, number_of_status};
ghost use Rattle.bridge_cli.specs.Lives.{status_of_mixer};
ghost use Rattle.bridge_cli.specs.Notes.{status_of_make, status_of_replay, status_of_units, status_of_words};

use bridge_live::MixStop;
use bridge_replay::ReplayStop;
use command_words::WordsFault;
use conf_file::EntryWhy;
use conf_make::MakeStop;
use io_edge::Failed;
use rtp_h261::UnitStop;

/// How a run ends.
#[derive(Clone, Copy, Debug, PartialEq, Eq)]
pub enum Status {
    /// The input was read to the end of what the job reads, and its answer was written. A live conference is done where its
    /// ticker ended.
    Done,
    /// The words ask for no job.
    Usage,
    /// The input failed.
    ReadFault,
    /// The output failed.
    WriteFault,
    /// The input ends too early, after so many octets.
    Cut { place: u64 },
    /// What begins at this octet of a conference file is no header or no entry.
    BadRecord { place: u64, why: EntryWhy },
    /// As many octets were taken as may be, 2^40, and the job would need more; or a live conference has had all its turns.
    Limit,
    /// What the lane of this number comes from could not be opened, or, at 16, what the chair comes from.
    OpenFault { lane: u8 },
    /// The memory that is needed is not there.
    NoMemory,
    /// The job is done, and the line of notes could not be written.
    NoteFault,
}

impl Status {
    /// The number that the program ends with.
    pub fn number(&self) -> u8
        ensures { result ≡ number_of_status self.now }
    {
        match self {
            Status::Done => 0,
            Status::Usage => 2,
            Status::ReadFault => 3,
            Status::WriteFault => 4,
            Status::Cut { .. } => 5,
            Status::BadRecord { .. } => 6,
            Status::Limit => 7,
            Status::OpenFault { .. } => 8,
            Status::NoMemory => 9,
            Status::NoteFault => 10,
        }
    }

    /// The status of a run with this one, whose output was handed on or could not be. Where it could not, output is lost, and
    /// the status is WriteFault, but for a run that had none.
    pub fn after_flush(self, flushed: Result<(), Failed>) -> Status
        ensures { result ≡ after_flush self flushed }
    {
        match flushed {
            Err(Failed) if self.loses_output() => Status::WriteFault,
            _ => self,
        }
    }

    /// Whether a run with this status may have had output that is held back.
    fn loses_output(self) -> bool
        ensures { result ≡ loses_output self }
    {
        match self {
            Status::Done
            | Status::ReadFault
            | Status::Cut { .. }
            | Status::BadRecord { .. }
            | Status::Limit
            | Status::NoteFault => true,
            Status::Usage | Status::WriteFault | Status::OpenFault { .. } | Status::NoMemory =>
                false,
        }
    }

    /// The status that tells why words were not read.
    pub fn of_words(fault: WordsFault) -> Status
        ensures { result ≡ status_of_words fault }
    {
        match fault {
            WordsFault::Usage => Status::Usage,
            WordsFault::NoMemory => Status::NoMemory,
        }
    }

    /// The status that tells of a stop of `replay`.
    pub fn of_replay(stop: ReplayStop) -> Status
        ensures { result ≡ status_of_replay stop }
    {
        match stop {
            ReplayStop::Done => Status::Done,
            ReplayStop::ReadFault => Status::ReadFault,
            ReplayStop::WriteFault => Status::WriteFault,
            ReplayStop::Cut { place } => Status::Cut { place },
            ReplayStop::BadRecord { place, why } => Status::BadRecord { place, why },
            ReplayStop::Limit => Status::Limit,
            ReplayStop::NoMemory => Status::NoMemory,
        }
    }

    /// The status that tells of a stop of `check` or `decode`.
    pub fn of_units(stop: UnitStop) -> Status
        ensures { result ≡ status_of_units stop }
    {
        match stop {
            UnitStop::Done => Status::Done,
            UnitStop::ReadFault => Status::ReadFault,
            UnitStop::WriteFault => Status::WriteFault,
            UnitStop::Cut { place } => Status::Cut { place },
            UnitStop::Limit => Status::Limit,
            UnitStop::NoMemory => Status::NoMemory,
        }
    }

    /// The status that tells of a stop of the mixer of a live conference.
    pub fn of_mixer(stop: MixStop) -> Status
        ensures { result ≡ status_of_mixer stop }
    {
        match stop {
            MixStop::Whole => Status::Done,
            MixStop::Sink => Status::WriteFault,
            MixStop::Ticker => Status::ReadFault,
            MixStop::Over => Status::Limit,
        }
    }

    /// The status that tells of a stop of `make`.
    pub fn of_make(stop: MakeStop) -> Status
        ensures { result ≡ status_of_make stop }
    {
        match stop {
            MakeStop::Done => Status::Done,
            MakeStop::WriteFault => Status::WriteFault,
            MakeStop::NoMemory => Status::NoMemory,
        }
    }
}
