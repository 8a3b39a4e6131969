//! How far long work has come, told to a person while it goes on: how much of the input was read.

use std::io::{self, Read};
use std::time::{Clock, Duration, Instant};

/// How long nothing more is told, in milliseconds.
const PAUSE: u64 = 250;

/// Goes to the beginning of the line of a terminal, and clears it (ECMA-48).
const CLEAR: &str = "\r\u{1b}[K";

/// The octets that are told as one megabyte.
const MEGABYTE: u64 = 1_000_000;

/// A reader that tells on standard error, at most four times a second, how much it gave.
#[derive(Drop)]
pub struct Progress<'a, R, H> {
    reader: R,
    host: &'a H,
    octets: u64,
    /// The octets that there are, where that is known.
    whole: Option<u64>,
    /// When something was told last, or when it began; nothing where nothing is told.
    since: Option<Instant>,
    told: bool,
}

impl<'a, R: Read, H: Clock + Eprint> Progress<'a, R, H> {
    /// A reader of the same octets, as many as `whole` says. It tells of them where it is `watched`.
    pub fn new(reader: R, host: &'a H, whole: Option<u64>, watched: bool) -> Progress<'a, R, H> {
        let since = if watched {
            Instant::now(host).ok()
        } else {
            None
        };
        Progress {
            reader,
            host,
            octets: 0,
            whole,
            since,
            told: false,
        }
    }

    // Tells how much was read, where it is time to.
    fn tell(&mut self) -> io::Result<()> {
        let Some(since) = self.since else {
            return Ok(());
        };
        let now = Instant::now(self.host)?;
        if now.duration_since(since) < Duration::from_millis(PAUSE) {
            return Ok(());
        }
        self.since = Some(now);
        self.told = true;
        let read = self.octets / MEGABYTE;
        match self.whole {
            Some(octets) => {
                let whole = octets / MEGABYTE;
                eprint!(self.host; "\rread {read} of {whole} MB")
            }
            None => eprint!(self.host; "\rread {read} MB"),
        }
    }

    /// The reader, where nothing more is told; what was is taken from the screen.
    pub fn ended(self) -> R {
        if self.told {
            let _cleared = eprint!(self.host; "{CLEAR}");
        }
        self.reader
    }
}

impl<'a, R: Read, H: Clock + Eprint> Read for Progress<'a, R, H> {
    fn read(&mut self, buf: &mut [u8]) -> io::Result<usize> {
        let count = self.reader.read(buf)?;
        self.octets = self.octets.saturating_add(count as u64);
        // that it cannot be told is no fault of the input
        let _told = self.tell();
        Ok(count)
    }
}
