// The number and the place of each refusal.
use refusal::Refusal;

#[derive(Clone, Copy)]
struct Row {
    refusal: Refusal,
    number: u8,
    place: usize,
}

const ROWS: [Row; 16] = [
    Row {
        refusal: Refusal::SheetLength,
        number: 1,
        place: 0,
    },
    Row {
        refusal: Refusal::SizeOutOfRange,
        number: 2,
        place: 0,
    },
    Row {
        refusal: Refusal::InnerNotLower(301),
        number: 3,
        place: 301,
    },
    Row {
        refusal: Refusal::MarkTooLarge(302),
        number: 4,
        place: 302,
    },
    Row {
        refusal: Refusal::WagonsMiscounted,
        number: 5,
        place: 0,
    },
    Row {
        refusal: Refusal::NoSection(65_535),
        number: 6,
        place: 65_535,
    },
    Row {
        refusal: Refusal::AlreadyThere(0),
        number: 7,
        place: 0,
    },
    Row {
        refusal: Refusal::NotThere(4),
        number: 8,
        place: 4,
    },
    Row {
        refusal: Refusal::NotNeighbours(70_000),
        number: 9,
        place: 70_000,
    },
    Row {
        refusal: Refusal::NumbersDiffer,
        number: 10,
        place: 0,
    },
    Row {
        refusal: Refusal::PageFull,
        number: 11,
        place: 0,
    },
    Row {
        refusal: Refusal::OutOfRoom,
        number: 12,
        place: 0,
    },
    Row {
        refusal: Refusal::BerthEmpty(511),
        number: 13,
        place: 511,
    },
    Row {
        refusal: Refusal::NoStanding,
        number: 14,
        place: 0,
    },
    Row {
        refusal: Refusal::BadLine,
        number: 15,
        place: 0,
    },
    Row {
        refusal: Refusal::LengthTooLarge(1),
        number: 16,
        place: 1,
    },
];

#[test]
fn numbers_and_places(rt: HostRuntime) {
    for row in ROWS {
        assert_eq!(rt; row.refusal.number(), row.number);
        assert_eq!(rt; row.refusal.place(), row.place);
    }
}

#[test]
fn another_place(rt: HostRuntime) {
    assert_eq!(rt;
        Refusal::NotNeighbours(3).at(70_000),
        Refusal::NotNeighbours(70_000)
    );
    assert_eq!(rt; Refusal::PageFull.at(7), Refusal::PageFull);
}
