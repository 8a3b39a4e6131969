//! Words of each command, and what they ask for.

use crate::{FormatOptions, Job, MakeOptions, PacketOptions, WordsFault, read_words};
use pel_model::Format;
use std::alloc::{AllocError, Global};
use std::test::Fail;

// The words of a line, which one space parts.
fn words_of(alloc: Global, line: &str) -> Result<Vec<String>, AllocError> {
    let mut words = Vec::new(alloc);
    for word in line.split(' ') {
        words.push(String::from_str(alloc, word)?)?;
    }
    Ok(words)
}

const PACKETS: PacketOptions = PacketOptions {
    mtu: 1_000,
    ssrc: 1_211_250_225,
    seq: 9,
    stamp: 0,
};

const MAKE: MakeOptions = MakeOptions {
    seed: 1,
    ticks: 100,
    lanes: 16,
};

#[test]
fn words_of_each_command(rt: HostRuntime) -> Result<(), Fail> {
    let lines = [
        "replay --seq=9 --mtu=1000",
        "history",
        "check --format=cif",
        "decode",
        "make --lanes=16",
        "live --mtu=1000 --chair=c --lanes=a,b --seq=9 --turns=1",
        "live --lanes=a",
    ];
    for line in lines {
        let words = words_of(rt.alloc(), line)?;
        match read_words(rt.alloc(), &words) {
            Ok(Job::Replay(packets)) => assert_eq!(rt; packets, PACKETS),
            Ok(Job::History) => assert_eq!(rt; line, "history"),
            Ok(Job::Check(FormatOptions { format }) | Job::Decode(FormatOptions { format })) => {
                assert_eq!(rt; format, Format::Cif);
            }
            Ok(Job::Make(make)) => assert_eq!(rt; make, MAKE),
            Ok(Job::Live(live)) => {
                assert_eq!(rt; live.packets, PACKETS);
                assert_eq!(rt; live.lanes.as_slice(), ["a", "b"].as_slice());
                assert_eq!(rt; live.chair.as_str(), "c");
                assert_eq!(rt; live.turns, 1);
            }
            Err(fault) => {
                assert_eq!(rt; fault, WordsFault::Usage);
                assert_eq!(rt; line, "live --lanes=a");
            }
        }
    }
    Ok(())
}
