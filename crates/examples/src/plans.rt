// Plans, bills and checks of lists, on the fork and on a line of three sections.
use crate::sidings::{fork, line_of_three};
use crate::tariffs::metres;
use lists::bill::bill;
use lists::check::check;
use lists::list::List;
use lists::offer::make_offer;
use lists::plan::plan;
use motion::moves::Move;
use refusal::Refusal;
use siding::Siding;
use std::test::Fail;
use tariff::amount::Amount;
use tariff::move_count::MoveCount;

// No move of the sidings here.
const BLANK: Move = Move { from: 9, to: 9 };

fn across(from: u16, to: u16) -> Move {
    Move { from, to }
}

#[test]
fn line_is_planned(rt: HostRuntime) -> Result<(), Fail> {
    let siding = line_of_three()?;
    let mut slots = [BLANK; 3];
    let mut list = List::new(&mut slots);
    list.add(BLANK)?;
    assert_eq!(rt; plan(&siding, &mut list), Ok(2));
    assert_eq!(rt; list.entry(0), Some(across(1, 2)));
    assert_eq!(rt; list.entry(1), Some(across(0, 1)));
    assert_eq!(rt; list.entry(2), None);
    assert_eq!(rt; check(&siding, &list), Ok(2));
    assert_eq!(rt; slots[2], BLANK);
    Ok(())
}

#[test]
fn fork_is_planned(rt: HostRuntime) -> Result<(), Fail> {
    let siding = fork()?;
    let mut slots = [BLANK; 3];
    let mut list = List::new(&mut slots);
    assert_eq!(rt; plan(&siding, &mut list), Ok(3));
    assert_eq!(rt; list.entry(0), Some(across(3, 1)));
    assert_eq!(rt; list.entry(1), Some(across(1, 0)));
    assert_eq!(rt; list.entry(2), Some(across(0, 2)));
    assert_eq!(rt; check(&siding, &list), Ok(3));
    Ok(())
}

#[test]
fn fork_is_billed(rt: HostRuntime) -> Result<(), Fail> {
    let siding = fork()?;
    let mut slots = [Amount::from(7); 4];
    let mut list = List::new(&mut slots);
    assert_eq!(rt; bill(&siding, &metres()?, &mut list), Ok(3));
    assert_eq!(rt; list.entry(0), Some(Amount::from(40)));
    assert_eq!(rt; list.entry(1), Some(Amount::from(65)));
    assert_eq!(rt; list.entry(2), Some(Amount::from(95)));
    assert_eq!(rt; list.entry(3), None);
    assert_eq!(rt; slots[3], Amount::from(7));
    Ok(())
}

#[test]
fn offer_has_its_quote(rt: HostRuntime) -> Result<(), Fail> {
    let siding = fork()?;
    let mut slots = [BLANK; 3];
    let mut list = List::new(&mut slots);
    let in_metres = make_offer(&siding, &metres()?, &mut list)?;
    assert_eq!(rt; in_metres.moves, 3);
    assert_eq!(rt; in_metres.quote, Amount::from(95));
    let in_moves = make_offer(&siding, &MoveCount, &mut list)?;
    assert_eq!(rt; in_moves.quote, Amount::from(3));
    assert_eq!(rt; list.entry(0), Some(across(3, 1)));
    Ok(())
}

// A list that is one too short keeps its entries and its slots.
#[test]
fn too_short_is_refused(rt: HostRuntime) -> Result<(), Fail> {
    let siding = fork()?;
    let mut slots = [BLANK; 2];
    let mut list = List::new(&mut slots);
    list.add(across(1, 0))?;
    assert_eq!(rt; plan(&siding, &mut list), Err(Refusal::OutOfRoom));
    assert_eq!(rt; list.len(), 1);
    assert_eq!(rt; list.entry(0), Some(across(1, 0)));
    assert_eq!(rt; slots[1], BLANK);
    let mut sums = [Amount::from(7); 2];
    let mut list = List::new(&mut sums);
    assert_eq!(rt;
        bill(&siding, &MoveCount, &mut list),
        Err(Refusal::OutOfRoom)
    );
    assert_eq!(rt; list.len(), 0);
    assert_eq!(rt; sums, [Amount::from(7); 2]);
    Ok(())
}

#[test]
fn list_fills_up(rt: HostRuntime) -> Result<(), Fail> {
    let mut slots = [BLANK; 1];
    let mut list = List::new(&mut slots);
    assert_eq!(rt; list.room(), 1);
    list.add(across(1, 0))?;
    assert_eq!(rt; list.add(across(0, 2)), Err(Refusal::OutOfRoom));
    assert_eq!(rt; list.len(), 1);
    list.clear();
    assert_eq!(rt; list.len(), 0);
    assert_eq!(rt; slots[0], across(1, 0));
    Ok(())
}

// What a list of these moves is answered.
fn checked(siding: &Siding, moves: &[Move]) -> Result<usize, Refusal> {
    let mut slots = [BLANK; 4];
    let mut list = List::new(&mut slots);
    for each in moves {
        list.add(*each)?;
    }
    check(siding, &list)
}

#[test]
fn lists_are_checked(rt: HostRuntime) -> Result<(), Fail> {
    let line = line_of_three()?;
    assert_eq!(rt;
        checked(&line, &[across(0, 1)]),
        Err(Refusal::AlreadyThere(0))
    );
    assert_eq!(rt; checked(&line, &[across(1, 2), across(0, 1)]), Ok(2));
    let fork = fork()?;
    assert_eq!(rt; checked(&fork, &[]), Err(Refusal::BerthEmpty(2)));
    assert_eq!(rt;
        checked(&fork, &[across(3, 1)]),
        Err(Refusal::BerthEmpty(2))
    );
    assert_eq!(rt;
        checked(&fork, &[across(3, 1), across(1, 0), across(0, 2)]),
        Ok(3)
    );
    assert_eq!(rt;
        checked(&fork, &[across(3, 0)]),
        Err(Refusal::NotNeighbours(0))
    );
    assert_eq!(rt;
        checked(&fork, &[across(3, 1), across(0, 2)]),
        Err(Refusal::NotThere(1))
    );
    Ok(())
}

// Any numbers may stand in a list.
#[test]
fn no_such_sections_are_checked(rt: HostRuntime) -> Result<(), Fail> {
    let fork = fork()?;
    assert_eq!(rt;
        checked(&fork, &[across(65_535, 65_535)]),
        Err(Refusal::NoSection(0))
    );
    assert_eq!(rt;
        checked(&fork, &[across(3, 1), across(1, 65_535)]),
        Err(Refusal::NoSection(1))
    );
    Ok(())
}

// Wagons and berths are compared before the moves are looked at.
#[test]
fn uneven_is_refused(rt: HostRuntime) -> Result<(), Fail> {
    let mut siding = fork()?;
    siding.mark(0)?;
    assert_eq!(rt;
        checked(&siding, &[across(65_535, 0)]),
        Err(Refusal::NumbersDiffer)
    );
    let mut slots = [BLANK; 1];
    let mut list = List::new(&mut slots);
    assert_eq!(rt; plan(&siding, &mut list), Err(Refusal::NumbersDiffer));
    let mut sums = [Amount::from(7); 1];
    let mut bills = List::new(&mut sums);
    assert_eq!(rt;
        bill(&siding, &MoveCount, &mut bills),
        Err(Refusal::NumbersDiffer)
    );
    Ok(())
}
