//! Sources that are opened by name: what an object that opens them promises, one in memory, and one over the files of the
//! system.
ghost use Rattle.std.specs.Prelude.{ℕ, ◌≡◌, ◌≢◌, ◌+◌, ◌<◌, None, length, take, slice_index_or, String, string_bytes, IfSome, IfNone, OnErr};
ghost use Rattle.std.specs.declared.alloc.Global.{Global};
ghost use Rattle.io_edge.specs.Calls.{OpensSource};
ghost use Rattle.io_edge.specs.Directory.{Directory, HasNone};
ghost use Rattle.io_edge.specs.Memory.{SourceState, entries_of, fault_after, house_tells, source_tells};

use super::{Failed, MemSource, ReadEdge, Source};
use std::fs::{File, Files};
use std::marker::Model;

/// Sources are opened by name here.
pub trait Opener {
    type Src: Source;

    // The names that it knows, each with the octets behind it, where they are told, and how many of its calls failed. That
    // count stays at its last value, 2 ^ 64 - 1.
    ghost tells: { Self → Directory };

    /// The source of the first entry of this name, none of whose calls has failed; the entry leaves the directory. A call that
    /// fails leaves the directory, and raises the count of faults; no other call changes it.
    fn reach(&mut self, name: &str) -> Result<Self::Src, Failed>
        ensures { OpensSource Self.Src.tells (tells self.old) (tells self.new) name.now result };
}

/// Sources in memory, each of which is given once.
#[derive(Drop)]
pub struct MemHouse {
    sources: Vec<(String, MemSource)>,
    faults: u64,
}

impl Model for MemHouse {
    ghost use Rattle.io_edge.specs.Memory.{HouseState};

    ghost Value = { HouseState };

    ghost view = { λ a. record { sources = a.sources.items; faults = a.faults } };
}

impl MemHouse {
    /// A house of these sources.
    pub fn new(sources: Vec<(String, MemSource)>) -> MemHouse
        ensures { result ≡ record { sources = sources.items; faults = 0 } }
    {
        MemHouse { sources, faults: 0 }
    }

    // The place of the first source of this name.
    fn place_of(&self, name: &str) -> Option<usize>
        ensures found { IfSome result (λ at. (at < length self.now.sources)
            × ((d : String Global × SourceState) → string_bytes (slice_index_or self.now.sources at d).0 ≡ name.now)
            × HasNone name.now (entries_of (take at self.now.sources))) }
        ensures none { IfNone result (HasNone name.now (entries_of self.now.sources)) }
    {
        for at in 0..self.sources.len() {
            if self.sources[at].0.as_str() == name {
                return Some(at);
            }
        }
        None
    }
}

impl Opener for MemHouse {
    type Src = MemSource;

    ghost tells = { house_tells };

    /// Fails exactly where it has no source of this name. The count of faults of a source that is given begins at 0.
    fn reach(&mut self, name: &str) -> Result<MemSource, Failed>
        ensures opened { OpensSource source_tells (house_tells self.old) (house_tells self.new)
            name.now result }
        ensures err { OnErr result (self.new ≡ record self.old
            { faults = fault_after self.old.faults }) }
    {
        let Some(at) = self.place_of(name) else {
            self.faults = self.faults.saturating_add(1);
            return Err(Failed);
        };
        let (_name, source) = self.sources.remove(at);
        Ok(source.anew())
    }
}

/// Files of the system as sources, by their paths. They tell nothing of what they hold. A FIFO is opened when its writer
/// opens it.
#[derive(Drop)]
pub struct FileHouse<'a, R> {
    files: &'a R,
    faults: u64,
}

impl<'a, R> Model for FileHouse<'a, R> {
    ghost use Rattle.io_edge.specs.Edge.{EdgeState, edge_code};

    ghost Value = { EdgeState R };

    ghost coded = { edge_code R.code };

    ghost view = { λ a. record { inner = a.files.now; faults = a.faults } };
}

impl<'a, R: Files> FileHouse<'a, R> {
    /// The files of this system, with no faults yet.
    pub fn new(rt: &'a R) -> FileHouse<'a, R>
        ensures { result ≡ record { inner = rt.now; faults = 0 } }
    {
        FileHouse {
            files: rt,
            faults: 0,
        }
    }
}

impl<'a, R: Files> Opener for FileHouse<'a, R> {
    type Src = ReadEdge<R::File>;

    ghost tells = { λ h. record { names = None; faults = h.faults } };

    fn reach(&mut self, name: &str) -> Result<ReadEdge<R::File>, Failed> {
        match File::open(self.files, name) {
            Ok(file) => Ok(ReadEdge::new(file)),
            Err(_error) => {
                self.faults = self.faults.saturating_add(1);
                Err(Failed)
            }
        }
    }
}
