//! Looks and offers of several threads, played.

ghost use Rattle.std.specs.Prelude.{◌≡◌};

use shared_book::{BestSeat, SharedCeiling};
use std::test::Fail;
use std::thread;

#[test]
fn a_look_finds_the_least_offer(rt: HostRuntime) -> Result<(), Fail> {
    let (ceiling, mut seat) = SharedCeiling::open(rt.alloc(), 9)?;
    assert_eq!(rt; ceiling.look(&mut seat), 9);
    assert_eq!(rt; ceiling.look(&mut seat), 9);
    let mut other = ceiling.split(&mut seat);
    ceiling.offer(&mut other, 8);
    ceiling.offer(&mut other, 12);
    assert_eq!(rt; ceiling.look(&mut seat), 8);
    Ok(())
}

/// Offers a thousand numbers, each two below the one before.
fn offer_falling(ceiling: &SharedCeiling, mut seat: BestSeat, from: u64)
    requires { seat.ceiling ≡ ceiling.now }
{
    for step in 0..1_000 {
        ceiling.offer(&mut seat, from.saturating_sub(2 * step));
    }
}

#[test]
fn a_look_finds_what_other_threads_offered(rt: HostRuntime) -> Result<(), Fail> {
    let (ceiling, mut seat) = SharedCeiling::open(rt.alloc(), u64::MAX)?;
    let even = ceiling.split(&mut seat);
    let odd = ceiling.split(&mut seat);
    thread::join(
        &rt,
        || offer_falling(&ceiling, even, 3_000),
        || offer_falling(&ceiling, odd, 3_001),
    );
    assert_eq!(rt; ceiling.look(&mut seat), 1_002);
    Ok(())
}
