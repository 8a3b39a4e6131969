//! The order in which lanes spoke, as a rank for each lane: 0 where it never spoke, and the greater the later.

ghost use Rattle.std.specs.Prelude.{◌≡◌, ◌≢◌, ◌<◌, ℕ, nat_lt, map, slice_index};
ghost use Rattle.stage_plan.specs.Places.{IsRanking, ranked};
ghost use Rattle.stage_plan.specs.Ranks.{closed_up, Raises};

/// The rank, once the rank `gone` below it is taken away. The rank 0 is never taken away.
fn closed_up(gone: u8, rank: u8) -> u8
    ensures { result ≡ closed_up gone rank }
{
    if 0 < gone && gone < rank {
        rank - 1
    } else {
        rank
    }
}

/// Takes a rank away, and closes up the ranks above it.
fn close_up(ranks: &mut [u8; 16], gone: u8)
    ensures { ranks.new ≡ map (closed_up gone) ranks.old }
{
    for rank in ranks.iter_mut() {
        *rank = closed_up(gone, *rank);
    }
}

/// How many lanes have spoken.
fn count(ranks: &[u8; 16]) -> u8
    ensures { result ≡ ranked ranks.now }
{
    ranks.iter().filter(|r| **r > 0).count() as u8
}

/// Gives the lane the greatest rank, and keeps the order of the others.
pub fn raise(ranks: &mut [u8; 16], lane: u8)
    requires lane { lane < 16 }
    requires ranking { IsRanking ranks.old }
    ensures ranking { IsRanking ranks.new }
    ensures raised { Raises lane ranks.old ranks.new }
{
    let gone = ranks[usize::from(lane)];
    close_up(ranks, gone);
    ranks[usize::from(lane)] = 0;
    ranks[usize::from(lane)] = count(ranks) + 1;
}
