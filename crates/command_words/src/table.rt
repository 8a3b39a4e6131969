//! The options: their names, ranges and defaults. What reads words and what tells a person of them both use this.

use pel_model::Format;

/// An option whose value is a number.
#[derive(Clone, Copy)]
pub struct NumberOption {
    pub name: &'static str,
    /// How a word begins that gives it: its name between `--` and `=`.
    pub start: &'static str,
    pub low: u64,
    pub high: u64,
    /// The value where no word gives it, as a word would.
    pub otherwise: &'static str,
    /// What it is, for a person.
    pub about: &'static str,
}

pub const MTU: NumberOption = NumberOption {
    name: "mtu",
    start: "--mtu=",
    low: 1_000,
    high: 9_000,
    otherwise: "1400",
    about: "most octets of a packet",
};

pub const SSRC: NumberOption = NumberOption {
    name: "ssrc",
    start: "--ssrc=",
    low: 0,
    high: 4_294_967_295,
    otherwise: "1211250225",
    about: "SSRC of the packets",
};

pub const SEQ: NumberOption = NumberOption {
    name: "seq",
    start: "--seq=",
    low: 0,
    high: 65_535,
    otherwise: "0",
    about: "sequence number of the first packet",
};

pub const STAMP: NumberOption = NumberOption {
    name: "stamp",
    start: "--stamp=",
    low: 0,
    high: 4_294_967_295,
    otherwise: "0",
    about: "timestamp at the beginning; a tick of step n adds 3003 n",
};

pub const SEED: NumberOption = NumberOption {
    name: "seed",
    start: "--seed=",
    low: 0,
    high: 4_294_967_295,
    otherwise: "1",
    about: "where the random numbers begin",
};

pub const TICKS: NumberOption = NumberOption {
    name: "ticks",
    start: "--ticks=",
    low: 0,
    high: 1_000_000,
    otherwise: "100",
    about: "number of ticks",
};

pub const LANES: NumberOption = NumberOption {
    name: "lanes",
    start: "--lanes=",
    low: 1,
    high: 16,
    otherwise: "4",
    about: "number of lanes",
};

/// An option whose value is `qcif` or `cif`.
#[derive(Clone, Copy)]
pub struct FormatOption {
    /// The format where no word gives it.
    pub otherwise: Format,
    /// What it is, for a person.
    pub about: &'static str,
}

/// How a word begins that gives it.
pub const FORMAT_START: &str = "--format=";

pub const CHECK_FORMAT: FormatOption = FormatOption {
    otherwise: Format::Qcif,
    about: "format of the pictures",
};

pub const DECODE_FORMAT: FormatOption = FormatOption {
    otherwise: Format::Cif,
    about: "format of the pictures",
};

/// The most turns of a live conference.
pub const TURNS: NumberOption = NumberOption {
    name: "turns",
    start: "--turns=",
    low: 1,
    high: 1_099_511_627_776,
    otherwise: "1099511627776",
    about: "most turns of lanes, chair and ticks together",
};

/// An option whose value is a name, or names with commas between. The words have to give it.
#[derive(Clone, Copy)]
pub struct NameOption {
    /// How a word begins that gives it: its name between `--` and `=`.
    pub start: &'static str,
    /// What stands behind that, for a person.
    pub value: &'static str,
    /// What it is, for a person.
    pub about: &'static str,
}

/// The most names of lanes.
pub const MOST_LANES: usize = 16;

pub const LANE_NAMES: NameOption = NameOption {
    start: "--lanes=",
    value: "FILE,..",
    about: "files of framed packets, one for each lane, 1 to 16",
};

pub const CHAIR_NAME: NameOption = NameOption {
    start: "--chair=",
    value: "FILE",
    about: "file of the chair's lines",
};
