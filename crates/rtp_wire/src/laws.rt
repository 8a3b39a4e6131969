//! Laws of packets and frames, each the contract of a function with nothing in its body.
ghost use Rattle.rtp_wire.specs.Frames.{LawOfAnswers, LawOfCalls, LawOfOneStream, LawOfStreams};
ghost use Rattle.rtp_wire.specs.Rtp.{LawOfPackets, LawOfPlainPackets};

/// A stream gives its packets in order, and then its end.
pub fn frames_of_a_stream()
    ensures { LawOfStreams }
{}

/// What a framer answers is fixed where its source tells its octets and does not fail.
pub fn answers_of_a_framer()
    ensures { LawOfAnswers }
{}

/// What a framer gives, call by call, are the packets of its source's stream.
pub fn streams_are_framed()
    ensures { LawOfCalls }
{}

/// A stream has one list of packets.
pub fn one_stream()
    ensures { LawOfOneStream }
{}

/// Octets are read as the fields of a packet exactly where they are the octets of such a packet.
pub fn octets_of_packets()
    ensures { LawOfPackets }
{}

/// What `write_header` writes and a payload behind it are read as the same fields and payload.
pub fn written_headers_are_read()
    ensures { LawOfPlainPackets }
{}
