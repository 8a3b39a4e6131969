//! The sources of a live conference are opened by their names: those of the lanes in order, and then the chair's.

ghost use Rattle.std.specs.Prelude.{◌≡◌, ◌≤◌, [], ◌∷◌, ◌++◌, length, map, MatchResult};
ghost use Rattle.bridge_cli.specs.Opening.{IsUnopened, ReachesAll, number_of_name};
ghost use Rattle.bridge_cli.specs.Lives.{names_of};

use crate::status::Status;
use command_words::LiveOptions;
use io_edge::{Failed, Opener};
use std::alloc::Global;

/// The number by which the chair is told of.
const CHAIR: u8 = 16;

/// What a conference is held from.
#[derive(Drop)]
pub struct Sources<S> {
    pub lanes: Vec<S>,
    pub chair: S,
}

/// Opens the lanes in their order.
fn open_lanes<P: Opener>(
    alloc: Global,
    names: &[&str],
    house: &mut P,
) -> Result<Vec<P::Src>, Status>
where
    P::Src: Drop,
    requires { length names.now ≤ 16 }
    ensures { MatchResult result
        (λ lanes. ReachesAll (map (λ n. n.now) names.now) (map P.Src.tells lanes.items)
        (P.tells house.old) (P.tells house.new))
        (IsUnopened (map (λ n. n.now) names.now) (λ place. place) (P.tells house.old) (P.tells house.new)) }
{
    let mut lanes = Vec::new(alloc);
    for name in names {
        match house.reach(name) {
            Ok(source) => {
                let Ok(()) = lanes.push(source) else {
                    return Err(Status::NoMemory);
                };
            }
            Err(Failed) => {
                let lane = lanes.len() as u8;
                return Err(Status::OpenFault { lane });
            }
        }
    }
    Ok(lanes)
}

/// Opens what the options name. Where a name cannot be opened, what was opened before it is let go.
pub fn open_all<P: Opener>(
    alloc: Global,
    options: &LiveOptions<'_>,
    house: &mut P,
) -> Result<Sources<P::Src>, Status>
where
    P::Src: Drop,
    requires { length options.now.lanes ≤ 16 }
    ensures { MatchResult result
        (λ sources. ReachesAll (names_of options.now)
        (map P.Src.tells sources.lanes.items ++ P.Src.tells sources.chair ∷ []) (P.tells house.old) (P.tells house.new))
        (IsUnopened (names_of options.now) (number_of_name (length options.now.lanes))
        (P.tells house.old) (P.tells house.new)) }
{
    match open_lanes(alloc, options.lanes.as_slice(), house) {
        Err(status) => Err(status),
        Ok(lanes) => match house.reach(options.chair.as_str()) {
            Ok(chair) => Ok(Sources { lanes, chair }),
            Err(Failed) => Err(Status::OpenFault { lane: CHAIR }),
        },
    }
}
