//! Laws of a lane's flow, of the chair's lines and of what a live conference did, each the contract of a function that does
//! nothing.
ghost use Rattle.bridge_live.specs.Flow.{LawOfOneFlow, LawOfFlowFronts};
ghost use Rattle.bridge_live.specs.Lines.{LawOfOneHearing};
ghost use Rattle.bridge_live.specs.ServeLaws.{LawOfStops, LawOfLanes, LawOfChair};
ghost use Rattle.bridge_live.specs.Gathered.{RunLaw, CompleteLaw};

use chair_words::one_answer;
use rtp_h261::{one_telling, packets_one_by_one};

/// Packets have one flow, and packets that come behind them change nothing of it.
pub fn flow_of_packets()
    ensures one { LawOfOneFlow }
    ensures fronts { LawOfFlowFronts }
{
    one_telling();
    packets_one_by_one();
}

/// A line of the chair is passed over, or it is faulty, or it says one command.
pub fn one_hearing()
    ensures { LawOfOneHearing }
{
    one_answer();
}

/// What the workers of a live conference know of their own calls, and what their joined seats and the closed lock tell, is
/// what the conference did.
pub(crate) fn workers_make_the_conference()
    ensures serves { RunLaw }
    ensures complete { CompleteLaw }
{}

/// Where a worker of a live conference stopped since all turns were drawn, as many were made as the conference may have; and
/// where a lane or the chair stopped since no step may follow, the conference has ended.
pub fn stops_of_a_conference()
    ensures { LawOfStops }
{}

/// What the history of a live conference has of a lane whose source tells its octets: by its stop all of the flow of their
/// packets, or a front of it, and a gap behind where the source did not end between two frames.
pub fn lanes_of_told_sources()
    ensures { LawOfLanes }
{
    flow_of_packets();
}

/// What the history of a live conference has of a chair whose source tells its octets: the commands that their lines say, all
/// of them where the chair stopped at the end of its source, and else the first of them.
pub fn chair_of_a_told_source()
    ensures { LawOfChair }
{
    one_hearing();
}
