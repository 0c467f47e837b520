// Sidings, read and written.
use motion::calls::{Act, Call};
use motion::moves::Move;
use planning::account::Account;
use planning::replay::replay;
use refusal::Refusal;
use siding::Siding;
use std::alloc::Global;
use std::test::Fail;

const FORK: &[u8] = b"\x00\x04\x00\x01\x00\x00\x00\x00\x00\x00\x00\x01\x00\x00\x02\x01";

#[test]
fn fork_is_read(rt: HostRuntime) -> Result<(), Fail> {
    let mut siding = Siding::bare();
    siding.draw_up(FORK)?;
    assert_eq!(rt; siding.sections(), 4);
    assert_eq!(rt; siding.wagon_count(), 1);
    assert_eq!(rt; siding.berth_count(), 1);
    assert_eq!(rt; siding.figure(), 3);
    assert_eq!(rt; siding.head(), 3);
    assert_eq!(rt; siding.moves(), 0);
    assert_eq!(rt; siding.away(), 0);
    assert_eq!(rt; siding.inner_of(3), Ok(1));
    assert_eq!(rt; siding.mark_of(2), Ok(2));
    assert_eq!(rt; siding.mark_of(3), Ok(1));
    assert_eq!(rt; siding.demand_of(0), Ok(0));
    assert_eq!(rt; siding.demand_of(1), Ok(-1));
    assert_eq!(rt; siding.demand_of(2), Ok(1));
    assert_eq!(rt; siding.demand_of(3), Ok(-1));
    Ok(())
}

#[test]
fn no_such_section(rt: HostRuntime) {
    let siding = Siding::bare();
    assert_eq!(rt; siding.inner_of(1), Err(Refusal::NoSection(1)));
    assert_eq!(rt; siding.mark_of(65_535), Err(Refusal::NoSection(65_535)));
    assert_eq!(rt; siding.demand_of(512), Err(Refusal::NoSection(512)));
}

#[test]
fn sheet_is_written(rt: HostRuntime) -> Result<(), Fail> {
    let siding = fork()?;
    let mut short = [7u8; 15];
    assert_eq!(rt; siding.write_sheet(&mut short), Err(Refusal::OutOfRoom));
    assert!(rt; short == [7u8; 15]);
    let mut buffer = [7u8; 18];
    assert_eq!(rt; siding.write_sheet(&mut buffer), Ok(16));
    assert!(rt; &buffer[0..16] == FORK);
    assert!(rt; &buffer[16..18] == [7u8, 7].as_slice());
    Ok(())
}

// A refused sheet leaves the siding as it was.
#[test]
fn refused_sheet_changes_nothing(rt: HostRuntime) -> Result<(), Fail> {
    let mut siding = fork()?;
    assert_eq!(rt;
        siding.draw_up(b"\x00\x01\x00\x01\x00\x00\x00"),
        Err(Refusal::WagonsMiscounted)
    );
    assert_eq!(rt; siding.sections(), 4);
    assert_eq!(rt; siding.figure(), 3);
    Ok(())
}

#[test]
fn page_is_turned(rt: HostRuntime) -> Result<(), Fail> {
    let mut siding = Siding::bare();
    let account = replay(
        &mut siding,
        FORK,
        &[Act::Call(Call::Turn), Act::Call(Call::Turn)],
    )?;
    assert_eq!(rt;
        account,
        Account {
            figure: 3,
            head: 3,
            moves: 0,
            away: 0,
        }
    );
    assert_eq!(rt;
        replay(&mut siding, b"", &[Act::Call(Call::Turn)]),
        Err(Refusal::SheetLength)
    );
    Ok(())
}

pub(crate) fn fork() -> Result<Siding, Refusal> {
    let mut siding = Siding::bare();
    siding.draw_up(FORK)?;
    Ok(siding)
}

// A wagon goes inward and back: the second move goes away from the berth.
#[test]
fn there_and_back(rt: HostRuntime) -> Result<(), Fail> {
    let mut siding = fork()?;
    siding.hand_move(3, 1)?;
    assert_eq!(rt; siding.figure(), 2);
    assert_eq!(rt; siding.demand_of(3), Ok(0));
    siding.hand_move(1, 3)?;
    assert_eq!(rt; siding.figure(), 3);
    assert_eq!(rt; siding.head(), 3);
    assert_eq!(rt; siding.moves(), 2);
    assert_eq!(rt; siding.away(), 1);
    Ok(())
}

// What a hand move refuses, in the order of the tests.
#[test]
fn hand_moves_refused(rt: HostRuntime) -> Result<(), Fail> {
    let mut siding = fork()?;
    siding.put(1)?;
    assert_eq!(rt;
        siding.hand_move(65_535, 4),
        Err(Refusal::NoSection(65_535))
    );
    assert_eq!(rt; siding.hand_move(0, 4), Err(Refusal::NoSection(4)));
    assert_eq!(rt; siding.hand_move(0, 3), Err(Refusal::NotNeighbours(0)));
    assert_eq!(rt; siding.hand_move(0, 0), Err(Refusal::NotNeighbours(0)));
    assert_eq!(rt; siding.hand_move(3, 3), Err(Refusal::NotNeighbours(0)));
    assert_eq!(rt; siding.hand_move(0, 1), Err(Refusal::NotThere(0)));
    assert_eq!(rt; siding.hand_move(3, 1), Err(Refusal::AlreadyThere(0)));
    assert_eq!(rt; siding.moves(), 0);
    Ok(())
}

// Wagons and berths come and go, and each begins a page.
#[test]
fn wagons_and_berths(rt: HostRuntime) -> Result<(), Fail> {
    let mut siding = fork()?;
    siding.hand_move(3, 1)?;
    siding.put(3)?;
    assert_eq!(rt; siding.wagon_count(), 2);
    assert_eq!(rt; siding.figure(), 4);
    assert_eq!(rt; siding.head(), 4);
    assert_eq!(rt; siding.moves(), 0);
    assert_eq!(rt; siding.put(3), Err(Refusal::AlreadyThere(0)));
    assert_eq!(rt; siding.put(4), Err(Refusal::NoSection(4)));
    siding.mark(3)?;
    assert_eq!(rt; siding.berth_count(), 2);
    assert_eq!(rt; siding.figure(), 2);
    assert_eq!(rt; siding.mark(3), Err(Refusal::AlreadyThere(0)));
    assert_eq!(rt; siding.mark(9), Err(Refusal::NoSection(9)));
    siding.take(1)?;
    assert_eq!(rt; siding.figure(), 1);
    assert_eq!(rt; siding.take(1), Err(Refusal::NotThere(0)));
    siding.unmark(2)?;
    assert_eq!(rt; siding.figure(), 0);
    assert_eq!(rt; siding.unmark(2), Err(Refusal::NotThere(0)));
    assert_eq!(rt; siding.take(65_535), Err(Refusal::NoSection(65_535)));
    assert_eq!(rt; siding.unmark(4), Err(Refusal::NoSection(4)));
    Ok(())
}

// Fills a page that was just begun, with as many moves away as back.
fn fill_page(siding: &mut Siding) -> Result<(), Refusal> {
    for _ in 0..250_000u32 {
        siding.hand_move(3, 1)?;
        siding.hand_move(1, 3)?;
    }
    Ok(())
}

// The page takes half a million moves and no more.
#[test]
fn page_fills(rt: HostRuntime) -> Result<(), Fail> {
    let mut siding = fork()?;
    fill_page(&mut siding)?;
    assert_eq!(rt; siding.hand_move(3, 1), Err(Refusal::PageFull));
    assert_eq!(rt; siding.moves(), 500_000);
    assert_eq!(rt; siding.away(), 250_000);
    siding.turn_page();
    siding.hand_move(3, 1)?;
    assert_eq!(rt; siding.moves(), 1);
    Ok(())
}

// Calls and steps, some of them refused, in one run.
#[test]
fn acts_are_done(rt: HostRuntime) -> Result<(), Fail> {
    let mut siding = Siding::bare();
    let acts = [
        Act::Call(Call::Hand(Move { from: 3, to: 1 })),
        Act::Call(Call::Hand(Move { from: 0, to: 3 })),
        Act::Call(Call::Hand(Move { from: 1, to: 3 })),
        Act::Call(Call::Take(2)),
        Act::Step,
    ];
    let account = replay(&mut siding, FORK, &acts)?;
    assert_eq!(rt;
        account,
        Account {
            figure: 2,
            head: 3,
            moves: 3,
            away: 1,
        }
    );
    Ok(())
}

// Three sections in a row, with wagons in 0 and 1 and berths at 1 and 2.
pub(crate) fn line_of_three() -> Result<Siding, Refusal> {
    let mut siding = Siding::bare();
    siding.draw_up(b"\x00\x03\x00\x02\x00\x00\x00\x00\x00\x01\x01\x03\x02")?;
    Ok(siding)
}

// The outer wagon of a line makes room first.
#[test]
fn room_is_made_first(rt: HostRuntime) -> Result<(), Fail> {
    let mut siding = line_of_three()?;
    assert_eq!(rt; siding.figure(), 2);
    assert_eq!(rt; siding.step(), Ok(Some(Move { from: 1, to: 2 })));
    assert_eq!(rt; siding.step(), Ok(Some(Move { from: 0, to: 1 })));
    assert_eq!(rt; siding.step(), Ok(None));
    assert_eq!(rt; siding.moves(), 2);
    assert_eq!(rt; siding.away(), 0);
    Ok(())
}

// With more wagons than berths, or fewer, no step is made.
#[test]
fn uneven_numbers(rt: HostRuntime) -> Result<(), Fail> {
    let mut siding = Siding::bare();
    siding.put(0)?;
    assert_eq!(rt; siding.figure(), 0);
    assert_eq!(rt; siding.step(), Err(Refusal::NumbersDiffer));
    siding.mark(0)?;
    assert_eq!(rt; siding.step(), Ok(None));
    siding.take(0)?;
    assert_eq!(rt; siding.step(), Err(Refusal::NumbersDiffer));
    Ok(())
}

// On a full page a step with a move due is refused, and one without is not.
#[test]
fn step_on_a_full_page(rt: HostRuntime) -> Result<(), Fail> {
    let mut siding = fork()?;
    fill_page(&mut siding)?;
    assert_eq!(rt; siding.step(), Err(Refusal::PageFull));
    siding.turn_page();
    for _ in 0..3 {
        assert!(rt; siding.step()? != None);
    }
    for _ in 0..249_998u32 {
        siding.hand_move(2, 0)?;
        siding.hand_move(0, 2)?;
    }
    siding.hand_move(2, 0)?;
    assert_eq!(rt; siding.moves(), 500_000);
    assert_eq!(rt; siding.step(), Err(Refusal::PageFull));
    Ok(())
}

// The sheet of a line: each section hangs on the one before.
fn line_sheet(heap: Global, sections: u16, wagons: u16) -> Result<Vec<u8>, Fail> {
    let mut sheet = Vec::new(heap);
    sheet.extend_from_slice(&sections.to_be_bytes())?;
    sheet.extend_from_slice(&wagons.to_be_bytes())?;
    sheet.extend_from_slice(&[0, 0])?;
    for s in 1..sections {
        sheet.extend_from_slice(&(s - 1).to_be_bytes())?;
    }
    Ok(sheet)
}

// A line of 512, with 256 wagons at the neck's end and 256 berths at the other: 256 wagons go 256 sections each.
#[test]
fn longest_line(rt: HostRuntime) -> Result<(), Fail> {
    let mut sheet = line_sheet(rt.alloc(), 512, 256)?;
    sheet.extend_from_slice(&[1; 256])?;
    sheet.extend_from_slice(&[2; 256])?;
    let mut siding = Siding::bare();
    siding.draw_up(sheet.as_slice())?;
    assert_eq!(rt; siding.figure(), 65_536);
    for _ in 0..65_536u32 {
        assert!(rt; siding.step()? != None);
    }
    assert_eq!(rt; siding.step(), Ok(None));
    assert_eq!(rt; siding.moves(), 65_536);
    assert_eq!(rt; siding.figure(), 0);
    assert_eq!(rt; siding.mark_of(0), Ok(0));
    assert_eq!(rt; siding.mark_of(511), Ok(3));
    Ok(())
}
