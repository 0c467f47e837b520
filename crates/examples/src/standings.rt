// Standings and their numbers.
use refusal::Refusal;
use standing::number::{Numbered, number};
use standing::standings::{standings, write_standing};
use std::array;
use std::test::Fail;

// C(1, 1) + C(2, 2)
#[test]
fn wagons_in_1_and_2_of_3(rt: HostRuntime) {
    let numbered = Numbered {
        wagons: 2,
        number: 2,
    };
    assert_eq!(rt; number(&[0, 1, 1]), Ok(numbered));
    let mut buffer = [7u8; 5];
    assert_eq!(rt; write_standing(3, 2, 2, &mut buffer), Ok(()));
    assert!(rt; buffer == [0, 1, 1, 7, 7]);
    assert_eq!(rt;
        write_standing(3, 2, 3, &mut buffer),
        Err(Refusal::NoStanding)
    );
    assert!(rt; buffer == [0, 1, 1, 7, 7]);
}

#[derive(Clone, Copy)]
struct Row {
    standing: [u8; 4],
    number: u64,
}

// Two wagons in sections a < b of 4: C(a, 1) + C(b, 2).
const TWO_OF_FOUR: [Row; 6] = [
    Row {
        standing: [1, 1, 0, 0],
        number: 0,
    },
    Row {
        standing: [1, 0, 1, 0],
        number: 1,
    },
    Row {
        standing: [0, 1, 1, 0],
        number: 2,
    },
    Row {
        standing: [1, 0, 0, 1],
        number: 3,
    },
    Row {
        standing: [0, 1, 0, 1],
        number: 4,
    },
    Row {
        standing: [0, 0, 1, 1],
        number: 5,
    },
];

#[test]
fn two_wagons_of_4_sections(rt: HostRuntime) -> Result<(), Fail> {
    for row in TWO_OF_FOUR {
        assert_eq!(rt;
            number(&row.standing),
            Ok(Numbered {
                wagons: 2,
                number: row.number,
            })
        );
        let mut buffer = [7u8; 4];
        write_standing(4, 2, row.number, &mut buffer)?;
        assert!(rt; buffer == row.standing);
    }
    Ok(())
}

// The lowest eight bits of a number, the first of them for section 0.
fn eight(bits: u16) -> [u8; 8] {
    array::from_fn(|place| u8::from(bits >> place & 1 == 1))
}

#[test]
fn up_to_8_sections_there_and_back(rt: HostRuntime) -> Result<(), Fail> {
    for n in 1..9usize {
        for bits in 0..256u16 {
            let marks = eight(bits);
            let standing = &marks[0..n];
            let numbered = number(standing)?;
            let mut buffer = [7u8; 8];
            write_standing(n, numbered.wagons, numbered.number, &mut buffer)?;
            assert!(rt; &buffer[0..n] == standing);
            assert!(rt; &buffer[n..8] == &[7u8; 8][n..8]);
        }
    }
    Ok(())
}

// 32 wagons in the lowest sections have the lowest number, and in the highest C(64, 32) - 1.
#[test]
fn half_of_64_sections(rt: HostRuntime) -> Result<(), Fail> {
    let mut low = [0u8; 64];
    low[0..32].fill(1);
    let mut high = [0u8; 64];
    high[32..64].fill(1);
    assert_eq!(rt;
        number(&low),
        Ok(Numbered {
            wagons: 32,
            number: 0,
        })
    );
    assert_eq!(rt;
        number(&high),
        Ok(Numbered {
            wagons: 32,
            number: 1_832_624_140_942_590_533,
        })
    );
    let mut buffer = [7u8; 64];
    write_standing(64, 32, 0, &mut buffer)?;
    assert!(rt; buffer == low);
    write_standing(64, 32, 1_832_624_140_942_590_533, &mut buffer)?;
    assert!(rt; buffer == high);
    assert_eq!(rt;
        write_standing(64, 32, 1_832_624_140_942_590_534, &mut buffer),
        Err(Refusal::NoStanding)
    );
    Ok(())
}

#[test]
fn standings_are_counted(rt: HostRuntime) {
    assert_eq!(rt; standings(3, 2), Ok(3));
    assert_eq!(rt; standings(3, 4), Ok(0));
    assert_eq!(rt; standings(1, 0), Ok(1));
    assert_eq!(rt; standings(64, 32), Ok(1_832_624_140_942_590_534));
    assert_eq!(rt; standings(0, 0), Err(Refusal::SizeOutOfRange));
    assert_eq!(rt; standings(65, 1), Err(Refusal::SizeOutOfRange));
}

// The size comes first, and then the lowest section at fault.
#[test]
fn bad_standings_are_refused(rt: HostRuntime) {
    assert_eq!(rt; number(&[]), Err(Refusal::SizeOutOfRange));
    assert_eq!(rt; number(&[0; 65]), Err(Refusal::SizeOutOfRange));
    assert_eq!(rt; number(&[2; 65]), Err(Refusal::SizeOutOfRange));
    assert_eq!(rt; number(&[2; 64]), Err(Refusal::MarkTooLarge(0)));
    assert_eq!(rt; number(&[0, 1, 255, 0, 2]), Err(Refusal::MarkTooLarge(2)));
}

// The size, then the number, then the room; and the buffer stays as it was.
#[test]
fn bad_numbers_are_refused(rt: HostRuntime) {
    let mut buffer = [7u8; 2];
    assert_eq!(rt;
        write_standing(0, 1, 1, &mut buffer),
        Err(Refusal::SizeOutOfRange)
    );
    assert_eq!(rt;
        write_standing(65, 66, 0, &mut buffer),
        Err(Refusal::SizeOutOfRange)
    );
    assert_eq!(rt;
        write_standing(usize::MAX, usize::MAX, u64::MAX, &mut buffer),
        Err(Refusal::SizeOutOfRange)
    );
    assert_eq!(rt;
        write_standing(3, 4, 0, &mut buffer),
        Err(Refusal::NoStanding)
    );
    assert_eq!(rt;
        write_standing(2, usize::MAX, 0, &mut buffer),
        Err(Refusal::NoStanding)
    );
    assert_eq!(rt;
        write_standing(3, 2, u64::MAX, &mut buffer),
        Err(Refusal::NoStanding)
    );
    assert_eq!(rt;
        write_standing(3, 2, 2, &mut buffer),
        Err(Refusal::OutOfRoom)
    );
    assert!(rt; buffer == [7u8, 7]);
}
