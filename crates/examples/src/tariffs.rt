// What the fork's moves are charged, under our tariffs and under one of another maker.
ghost use Rattle.std.specs.Prelude.{◌≡◌, false, not, ◌||◌, ◌==◌};
ghost use Rattle.std.proofs.Common.{rules};

use crate::sidings::fork;
use motion::ways::Way;
use quoting::quote::quote;
use refusal::Refusal;
use siding::Siding;
use std::test::Fail;
use tariff::Tariff;
use tariff::amount::Amount;
use tariff::metres::Metres;
use tariff::move_count::MoveCount;
use tariff::pair::Pair;
use tariff::steepest::Steepest;

pub(crate) fn metres() -> Result<Metres, Refusal> {
    let mut metres = Metres::level();
    metres.fill(&[0, 25, 30, 40])?;
    Ok(metres)
}

fn grades() -> Result<Steepest, Refusal> {
    let mut grades = Steepest::level();
    grades.fill(&[0, 7, 0, 4], &[0, 0, 2, 0])?;
    Ok(grades)
}

// A tariff of another maker: whether a toll is paid at section 2, however often it is crossed.
#[derive(Clone, Copy)]
struct Toll;

impl Tariff for Toll {
    type Sum = bool;

    ghost rule = { λ _. record { none = false; cost = λ s w. (s == 2); plus = λ a b. a || b; within = λ a b. not a || b } };

    ghost laws = { Prim.search rules };

    ghost total = { Prim.search rules };

    ghost outside = { Prim.search rules };

    fn nothing(&self) -> bool {
        false
    }

    fn charge(&self, section: u16, _way: Way) -> bool {
        section == 2
    }

    fn join(&self, a: bool, b: bool) -> bool {
        a || b
    }

    fn not_more(&self, a: bool, b: bool) -> bool {
        !a || b
    }
}

#[test]
fn fork_is_quoted(rt: HostRuntime) -> Result<(), Fail> {
    let siding = fork()?;
    assert_eq!(rt; u32::from(quote(&siding, &MoveCount)?), siding.figure());
    assert_eq!(rt; u32::from(quote(&siding, &metres()?)?), 95);
    assert_eq!(rt; quote(&siding, &grades()?)?, 7);
    let both = quote(
        &siding,
        &Pair {
            one: grades()?,
            two: metres()?,
        },
    )?;
    assert_eq!(rt; both.first, 7);
    assert_eq!(rt; u32::from(both.second), 95);
    Ok(())
}

#[test]
fn pair_holds_pairs(rt: HostRuntime) -> Result<(), Fail> {
    let counts = Pair {
        one: MoveCount,
        two: metres()?,
    };
    let pairs = Pair {
        one: counts,
        two: Pair {
            one: grades()?,
            two: MoveCount,
        },
    };
    let sum = quote(&fork()?, &pairs)?;
    assert_eq!(rt; u32::from(sum.first.first), 3);
    assert_eq!(rt; u32::from(sum.first.second), 95);
    assert_eq!(rt; sum.second.first, 7);
    assert_eq!(rt; u32::from(sum.second.second), 3);
    Ok(())
}

// With equal firsts the seconds decide; with unequal ones they play no part.
#[test]
fn pair_compares_firsts_first(rt: HostRuntime) -> Result<(), Fail> {
    let pair = Pair {
        one: grades()?,
        two: metres()?,
    };
    let low = pair.charge(2, Way::Outward);
    let high = pair.charge(1, Way::Inward);
    assert!(rt; pair.not_more(low, high));
    assert!(rt; !pair.not_more(high, low));
    let flat = pair.charge(3, Way::Outward);
    let none = pair.nothing();
    assert!(rt; pair.not_more(none, flat));
    assert!(rt; !pair.not_more(flat, none));
    Ok(())
}

#[test]
fn another_makers_tariff_is_quoted(rt: HostRuntime) -> Result<(), Fail> {
    let mut siding = fork()?;
    assert!(rt; quote(&siding, &Toll)?);
    siding.unmark(2)?;
    siding.mark(1)?;
    assert!(rt; !quote(&siding, &Toll)?);
    Ok(())
}

#[test]
fn uneven_is_refused(rt: HostRuntime) -> Result<(), Fail> {
    let mut siding = fork()?;
    siding.put(0)?;
    assert_eq!(rt; quote(&siding, &MoveCount), Err(Refusal::NumbersDiffer));
    Ok(())
}

#[test]
fn too_long_is_refused(rt: HostRuntime) -> Result<(), Fail> {
    let mut metres = metres()?;
    assert_eq!(rt;
        metres.fill(&[1, 9_999, 10_000, 10_001]),
        Err(Refusal::LengthTooLarge(2))
    );
    assert_eq!(rt; metres.fill(&[10_000; 513]), Err(Refusal::SizeOutOfRange));
    assert_eq!(rt; u32::from(quote(&fork()?, &metres)?), 95);
    let mut grades = grades()?;
    assert_eq!(rt; grades.fill(&[1], &[0; 513]), Err(Refusal::SizeOutOfRange));
    assert_eq!(rt; quote(&fork()?, &grades)?, 7);
    Ok(())
}

// A filling replaces all of a table: what the list misses is 0.
#[test]
fn filling_replaces_all(rt: HostRuntime) -> Result<(), Fail> {
    let mut metres = metres()?;
    metres.fill(&[500, 5])?;
    assert_eq!(rt; u32::from(metres.charge(1, Way::Inward)), 5);
    assert_eq!(rt; u32::from(metres.charge(3, Way::Outward)), 0);
    assert_eq!(rt; u32::from(metres.charge(0, Way::Outward)), 0);
    metres.fill(&[9_999; 512])?;
    assert_eq!(rt; u32::from(metres.charge(511, Way::Outward)), 9_999);
    assert_eq!(rt; u32::from(metres.charge(512, Way::Outward)), 0);
    Ok(())
}

#[test]
fn amounts_stop_at_the_largest(rt: HostRuntime) {
    let largest = Amount::from(4_294_967_295);
    let sum = MoveCount.join(largest, Amount::from(1));
    assert_eq!(rt; u32::from(sum), 4_294_967_295);
    assert!(rt; MoveCount.not_more(largest, sum));
}
