//! Two machines under the lock: a total, which each call adds to, and a dial, which each call turns to a mark.
ghost use Rattle.std.specs.Prelude.{◌≡◌, ◌+◌, ◌^◌, ◌%◌, ◌∷◌, ◌++◌, ◌<◌, ◌≤◌, ℕ, ⊤, [], sum_by, refl};
ghost use Rattle.std.proofs.Common.{ap};
ghost use Rattle.hall_lock.specs.Places.{EachOnce};
ghost use Rattle.hall_lock.specs.Seats.{IsOf};
ghost use Rattle.hall_lock.specs.Own.{turns_at, Rise};
ghost use Rattle.hall_lock.specs.Sorting.{owned_by};
ghost use Rattle.hall_lock.specs.Telling.{pieces};

use super::*;
use std::process::Abort;
use std::sync::Wait;
use std::test::Fail;
use std::thread;
use std::thread::Threads;

/// A total modulo 2^64. A call adds a number to it, and the reply is the total.
#[derive(Drop)]
struct Total {
    total: u64,
}

impl Machine for Total {
    type Call = u64;

    type Reply = u64;

    type Shape = ();

    ghost shape = { λ _. tt };

    ghost fits = { λ _ _. ⊤ };

    ghost steps = { λ m c r n. (r ≡ (m.total + c) % 2 ^ 64) × (n.total ≡ r) };

    ghost keeps_shape = { λ m c r n s. refl };

    fn step(&mut self, call: u64) -> u64 {
        self.total = self.total.wrapping_add(call);
        self.total
    }
}

/// A dial with so many marks. A call names a mark, and the reply is the mark where the dial stood before.
#[derive(Drop)]
struct Dial {
    marks: u64,
    at: u64,
}

impl Machine for Dial {
    type Call = u64;

    type Reply = u64;

    type Shape = u64;

    ghost shape = { λ d. d.marks };

    ghost fits = { λ marks mark. mark < marks };

    ghost steps = { λ m c r n. (r ≡ m.at) × (n ≡ record m { at = c }) };

    ghost keeps_shape = { λ m c r n s. ap (λ d. d.marks) s.1 };

    fn step(&mut self, call: u64) -> u64 {
        let before = self.at;
        self.at = call;
        before
    }
}

/// The total at the end is the sum of all calls in the history.
fn close_at_the_sum(lock: Shared<Total>, seat: Seat<Total>) -> u64
    requires { IsOf lock seat × (seat.share ≡ 2 ^ 32) × (lock.opening.total ≡ 0) }
    ensures { result ≡ sum_by (λ t. t.call) seat.seen % 2 ^ 64 }
{
    lock.close(seat).machine.total
}

#[test]
fn three_turns_and_a_glance(rt: HostRuntime) -> Result<(), Fail> {
    let (lock, mut seat) = Shared::reserve(rt.alloc(), Total { total: 0 }, 3)?;
    let mut other = lock.split(&mut seat, 1);
    assert!(rt; matches!(lock.call(&rt, &mut seat, 5), Ok(5)));
    assert!(rt; matches!(lock.call(&rt, &mut seat, 7), Ok(12)));
    assert_eq!(rt; lock.glance(&mut other), 2);
    Ok(())
}

#[test]
fn one_turn_then_over(rt: HostRuntime) -> Result<(), Fail> {
    let (lock, mut seat) = Shared::reserve(rt.alloc(), Total { total: 0 }, 1)?;
    assert!(rt; matches!(lock.call(&rt, &mut seat, 5), Ok(5)));
    assert!(rt; matches!(lock.call(&rt, &mut seat, 7), Err(Over(7))));
    let closed = lock.close(seat);
    assert!(rt; closed.turns == 1 && closed.machine.total == 5);
    Ok(())
}

#[test]
fn calls_that_fit_the_shape(rt: HostRuntime) -> Result<(), Fail> {
    let (lock, mut seat) = Shared::reserve(rt.alloc(), Dial { marks: 12, at: 0 }, 2)?;
    assert!(rt; matches!(lock.call(&rt, &mut seat, 3), Ok(0)));
    assert!(rt; matches!(lock.call(&rt, &mut seat, 11), Ok(3)));
    Ok(())
}

/// Makes calls of 1.
fn add_ones<R: Wait>(rt: &R, lock: &Shared<Total>, mut seat: Seat<Total>, calls: u32) -> Seat<Total>
    requires { IsOf lock.now seat }
    ensures { IsOf lock.now result × (result.share ≡ seat.share) × (result.past ≡ seat.past) }
{
    for _ in 0..calls {
        let _reply = lock.call(rt, &mut seat, 1);
    }
    seat
}

/// Calls with two seats in two threads, and joins the second one into the first.
fn in_two_threads<R: Threads + Wait + Sync>(
    rt: &R,
    lock: &Shared<Total>,
    one: Seat<Total>,
    two: Seat<Total>,
    calls: u32,
) -> (Seat<Total>, Past<Total>)
    requires { IsOf lock.now one × IsOf lock.now two }
    ensures seat { IsOf lock.now result.0 × (result.0.share ≡ one.share + two.share) }
    ensures past { result.0.past ≡ one.past ++ (result.1.seat.value.mine ++ two.past) }
{
    let (mut one, two) = thread::join(
        rt,
        || -> Seat<Total>
            requires { IsOf lock.now one }
            ensures { IsOf lock.entry.now result × (result.share ≡ one.share) × (result.past ≡ one.past) }
        { add_ones(rt, lock, one, calls) },
        || -> Seat<Total>
            requires { IsOf lock.now two }
            ensures { IsOf lock.entry.now result × (result.share ≡ two.share) × (result.past ≡ two.past) }
        { add_ones(rt, lock, two, calls) },
    );
    let past = lock.join(&mut one, two);
    (one, past)
}

/// Two threads call, and every turn is in `mine` of one of their two seats.
fn close_after_two<R: Threads + Wait + Sync>(
    rt: &R,
    lock: Shared<Total>,
    mut one: Seat<Total>,
    calls: u32,
) -> (Closed<Total>, Past<Total>)
    requires { IsOf lock one × (one.share ≡ 2 ^ 32) × (one.past ≡ []) }
    ensures { EachOnce result.0.turns (result.0.seat.value.mine ++ result.1.seat.value.mine) }
{
    let two = lock.split(&mut one, 1 << 31);
    let (one, past) = in_two_threads(rt, &lock, one, two, calls);
    (lock.close(one), past)
}

/// Splits the seat for two threads, and joins the two halves again.
fn in_halves<R: Threads + Wait + Sync>(
    rt: &R,
    lock: &Shared<Total>,
    mut seat: Seat<Total>,
    part: u64,
    calls: u32,
) -> Seat<Total>
    requires { IsOf lock.now seat × (1 ≤ part) × (part < seat.share) }
    ensures { IsOf lock.now result × (result.share ≡ seat.share) }
{
    let half = lock.split(&mut seat, part);
    in_two_threads(rt, lock, seat, half, calls).0
}

/// Four threads: each of two halves of the seat is split for two threads, and all are joined again.
fn in_a_tree<R: Threads + Wait + Sync>(
    rt: &R,
    lock: &Shared<Total>,
    mut one: Seat<Total>,
    calls: u32,
) -> Seat<Total>
    requires { IsOf lock.now one × (one.share ≡ 2 ^ 32) }
    ensures { IsOf lock.now result × (result.share ≡ 2 ^ 32) }
{
    let two = lock.split(&mut one, 1 << 31);
    let (mut one, two) = thread::join(
        rt,
        || -> Seat<Total>
            requires { IsOf lock.now one × (one.share ≡ 2 ^ 31) }
            ensures { IsOf lock.entry.now result × (result.share ≡ 2 ^ 31) }
        { in_halves(rt, lock, one, 1 << 30, calls) },
        || -> Seat<Total>
            requires { IsOf lock.now two × (two.share ≡ 2 ^ 31) }
            ensures { IsOf lock.entry.now result × (result.share ≡ 2 ^ 31) }
        { in_halves(rt, lock, two, 1 << 30, calls) },
    );
    lock.join(&mut one, two);
    one
}

#[test]
fn four_threads_with_seats_split_and_joined_in_a_tree(rt: HostRuntime) -> Result<(), Fail> {
    let (lock, seat) = Shared::reserve(rt.alloc(), Total { total: 0 }, 2_000)?;
    let seat = in_a_tree(&rt, &lock, seat, 500);
    assert_eq!(rt; close_at_the_sum(lock, seat), 2_000);
    Ok(())
}

#[test]
fn two_threads_draw_no_more_than_all_turns(rt: HostRuntime) -> Result<(), Fail> {
    let (lock, seat) = Shared::reserve(rt.alloc(), Total { total: 0 }, 1_500)?;
    let (closed, _past) = close_after_two(&rt, lock, seat, 1_000);
    assert!(rt; closed.turns == 1_500 && closed.machine.total == 1_500);
    Ok(())
}

/// Definitions at values by hand.
fn values_by_hand()
    ensures places { turns_at {T = ℕ} (10 ∷ 11 ∷ 12 ∷ []) (0 ∷ 2 ∷ []) ≡ 10 ∷ 12 ∷ [] }
    ensures nowhere { turns_at {T = ℕ} (10 ∷ []) (1 ∷ 0 ∷ []) ≡ 10 ∷ [] }
    ensures rise { Rise 0 (0 ∷ 2 ∷ []) 3 }
    ensures twice { Rise 0 (2 ∷ 2 ∷ []) 3 → ⊥ }
    ensures outside { Rise 0 (0 ∷ 3 ∷ []) 3 → ⊥ }
    ensures owned { owned_by {T = ℕ} (λ t. t % 2) 1 (4 ∷ 7 ∷ 2 ∷ 9 ∷ []) ≡ 7 ∷ 9 ∷ [] }
    ensures running { pieces {A = ℕ} {T = ℕ} {X = ℕ} (λ a t. a + t) (λ a t. (a + t) ∷ []) 0 (1 ∷ 2 ∷ 3 ∷ [])
        ≡ 1 ∷ 3 ∷ 6 ∷ [] }
{}
