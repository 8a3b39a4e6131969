//! Laws of packets, units and events, each the contract of a function that does nothing.
ghost use Rattle.rtp_h261.specs.Events.{LawOfOneTelling};
ghost use Rattle.rtp_h261.specs.Payload.{LawOfHeaders};
ghost use Rattle.rtp_h261.specs.WindowLaws.{LawOfWidthZero, LawOfWindows};
ghost use Rattle.rtp_h261.specs.WorkedPackets.{WorkedPackets};
ghost use Rattle.rtp_h261.specs.WorkedWindows.{WorkedWindows};
ghost use Rattle.rtp_h261.specs.OneByOne.{LawOfSteps, LawOfFronts};

use picture_laws::one_record_or_one_fault;

/// What a packet gives depends on the packets before it by what one holds of them, and no later packet changes it.
pub fn packets_one_by_one()
    ensures steps { LawOfSteps }
    ensures fronts { LawOfFronts }
{}

/// What happens at packets is one list of events.
pub fn one_telling()
    ensures { LawOfOneTelling }
{
    one_record_or_one_fault();
}

/// Four octets are those of one payload header.
pub fn one_header()
    ensures { LawOfHeaders }
{}

/// What some lists of packets give, computed from the definition.
pub fn worked_packets()
    ensures { WorkedPackets }
{}

/// What a window is for, and what is fed without one.
pub fn packets_in_order()
    ensures windows { LawOfWindows }
    ensures width_zero { LawOfWidthZero }
{}

/// What windows give out of some lists of packets, computed from the definition.
pub fn worked_windows()
    ensures { WorkedWindows }
{}
