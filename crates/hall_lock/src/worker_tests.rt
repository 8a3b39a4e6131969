//! A stock under the lock, whose calls name the worker that makes them.
ghost use Rattle.std.specs.Prelude.{◌≡◌, ◌+◌, ◌-◌, ◌^◌, ◌∷◌, [], ℕ, ⊤, refl};
ghost use Rattle.std.specs.List.{AllByRecursion};
ghost use Rattle.hall_lock.specs.Seats.{IsOf};
ghost use Rattle.hall_lock.specs.Own.{made, InOrder};
ghost use Rattle.hall_lock.specs.Sorting.{WorkFrom, SharedOut};
ghost use Rattle.hall_lock.specs.TurnLaws.{TellLaw, ShareLaw};
ghost use Rattle.hall_lock.specs.declared.worker_tests.Ask.{Ask};
ghost use Rattle.hall_lock.specs.declared.worker_tests.Stock.{Stock};
ghost use Rattle.hall_lock.specs.declared.worker_tests.Names.{Names};

use super::*;
use std::alloc::Global;
use std::process::Abort;
use std::sync::Wait;
use std::test::Fail;
use std::thread;
use std::thread::Threads;

/// A worker asks for one piece of the stock.
#[derive(Drop)]
struct Ask {
    worker: u8,
}

/// A stock of so many pieces. A call takes one, and the reply says how many there were; 0 where there is none.
#[derive(Drop)]
struct Stock {
    pieces: u64,
}

impl Machine for Stock {
    type Call = Ask;

    type Reply = u64;

    type Shape = ();

    ghost shape = { λ _. tt };

    ghost fits = { λ _ _. ⊤ };

    ghost steps = { λ m c r n. (r ≡ m.pieces) × (n.pieces ≡ m.pieces - 1) };

    ghost keeps_shape = { λ m c r n s. refl };

    fn step(&mut self, _call: Ask) -> u64 {
        let before = self.pieces;
        self.pieces = before.saturating_sub(1);
        before
    }
}

/// One worker, whose turns are all its own.
fn take_pieces<R: Wait>(
    rt: &R,
    lock: &Shared<Stock>,
    mut seat: Seat<Stock>,
    worker: u8,
    calls: u32,
) -> Seat<Stock>
    requires { IsOf lock.now seat × (seat.mine ≡ []) }
    ensures seat { IsOf lock.now result × InOrder result × (result.share ≡ seat.share) × (result.past ≡ seat.past) }
    ensures own { AllByRecursion (λ t. t.call.worker ≡ worker) (made result) }
{
    for _ in 0..calls {
        let _reply = lock.call(rt, &mut seat, Ask { worker });
    }
    seat
}

/// Two workers take pieces in two threads.
fn in_two_threads<R: Threads + Wait + Sync>(
    rt: &R,
    lock: &Shared<Stock>,
    one: Seat<Stock>,
    two: Seat<Stock>,
    calls: u32,
) -> (Seat<Stock>, Seat<Stock>)
    requires one { IsOf lock.now one × (one.mine ≡ []) }
    requires two { IsOf lock.now two × (two.mine ≡ []) }
    ensures one { IsOf lock.now result.0 × InOrder result.0 × (result.0.share ≡ one.share)
        × (result.0.past ≡ one.past) }
    ensures two { IsOf lock.now result.1 × InOrder result.1 × (result.1.share ≡ two.share)
        × (result.1.past ≡ two.past) }
    ensures own { AllByRecursion (λ t. t.call.worker ≡ 0) (made result.0)
        × AllByRecursion (λ t. t.call.worker ≡ 1) (made result.1) }
{
    thread::join(
        rt,
        || -> Seat<Stock>
            requires { IsOf lock.now one × (one.mine ≡ []) }
            ensures seat { IsOf lock.entry.now result × InOrder result × (result.share ≡ one.share)
                × (result.past ≡ one.past) }
            ensures own { AllByRecursion (λ t. t.call.worker ≡ 0) (made result) }
        { take_pieces(rt, lock, one, 0, calls) },
        || -> Seat<Stock>
            requires { IsOf lock.now two × (two.mine ≡ []) }
            ensures seat { IsOf lock.entry.now result × InOrder result × (result.share ≡ two.share)
                × (result.past ≡ two.past) }
            ensures own { AllByRecursion (λ t. t.call.worker ≡ 1) (made result) }
        { take_pieces(rt, lock, two, 1, calls) },
    )
}

/// Joins the seats of two workers into one that made no call, and ends the lock: the turns in the history that name a worker
/// are those that its seat made.
fn close_by_name(
    lock: Shared<Stock>,
    mut seat: Seat<Stock>,
    one: Seat<Stock>,
    two: Seat<Stock>,
) -> Closed<Stock>
    requires seat { IsOf lock seat × (seat.mine ≡ []) × (seat.past ≡ []) }
    requires workers { IsOf lock one × IsOf lock two }
    requires whole { seat.share + one.share + two.share ≡ 2 ^ 32 }
    requires own { WorkFrom (λ t. t.call.worker) 0 (one ∷ two ∷ []) }
    ensures { SharedOut (λ t. t.call.worker) result.seat.value.seen (one ∷ two ∷ []) }
{
    lock.join(&mut seat, one);
    lock.join(&mut seat, two);
    lock.close(seat)
}

#[test]
fn two_threads_lose_no_piece(rt: HostRuntime) -> Result<(), Fail> {
    let (lock, mut seat) = Shared::reserve(rt.alloc(), Stock { pieces: 250 }, 200)?;
    let one = lock.split(&mut seat, 1);
    let two = lock.split(&mut seat, 1);
    let (one, two) = in_two_threads(&rt, &lock, one, two, 100);
    let closed = close_by_name(lock, seat, one, two);
    assert!(rt; closed.turns == 200 && closed.machine.pieces == 50);
    Ok(())
}

/// What a call tells: the worker that made it.
struct Names;

impl Tale for Names {
    type Turn = Ask;

    type Item = u8;

    ghost tells = { λ _ t items. items ≡ t.worker ∷ [] };
}

/// The laws of a machine and a tale of these tests.
fn laws_at_types()
    ensures told { (tale : Names) → TellLaw (⟦<Names as Tale>⟧.tells tale) }
    ensures shared_out { ShareLaw Stock Ask ℕ }
{
    turns_tell_items::<Names>();
    history_is_shared_out::<Stock>();
}
