//! Laws of replays: functions whose contracts are the laws, and which compute nothing.
ghost use Rattle.bridge_replay.specs.Account.{LawOfOneAccount};
ghost use Rattle.bridge_replay.specs.FileHistory.{LawOfOneHistory};
ghost use Rattle.bridge_replay.specs.ReadingBack.{PacketsAreSent, PacketsGiveTexts, EachPacketGives, OctetsGivePictures, TextIsItsPicture};
ghost use Rattle.bridge_replay.specs.Worked.{OneEmptyTick};

use rtp_wire::{one_stream, written_headers_are_read};

/// Entries have one history at most, so that what is written for a file depends on the file alone.
pub fn one_history()
    ensures { LawOfOneHistory }
{}

/// One list of lines at most is told of entries, so that what is told of a file depends on the file alone.
pub fn one_account()
    ensures { LawOfOneAccount }
{}

/// A conference of one lane and one tick of one step: what its file says, its history, the 61 octets that are written for it,
/// and its tally.
pub fn worked_replay()
    ensures { OneEmptyTick }
{}

/// The octets of valid CIF pictures within the limit are their packets, each in its frame. Fed in order, the packets give
/// one unit for each picture at its last packet, with the picture's text as its bits, nothing at the others, and no loss;
/// and such a unit is the picture. However octets are cut into packets, these are the packets.
pub fn packets_are_read_back()
    ensures sent { PacketsAreSent }
    ensures given { PacketsGiveTexts }
    ensures one_by_one { EachPacketGives }
    ensures pictures { OctetsGivePictures }
    ensures unit { TextIsItsPicture }
{
    // the laws that these rest on: a packet is read as it was written, and a stream has one list of packets
    written_headers_are_read();
    one_stream();
}
