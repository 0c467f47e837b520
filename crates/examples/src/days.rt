// What the day program answers, and the acts that lines say.
use daybook::acts::{Unread, read_acts};
use daybook::day::day;
use motion::calls::{Act, Call};
use motion::moves::Move;
use refusal::Refusal;
use std::alloc::Global;
use std::test::Fail;

// An input, and the whole answer to it.
#[derive(Clone, Copy)]
struct Row {
    input: &'static [u8],
    answer: &'static str,
}

const ROWS: [Row; 27] = [
    // the fork
    Row {
        input: b"\x00\x04\x00\x01\x00\x00\x00\x00\x00\x00\x00\x01\x00\x00\x02\x01",
        answer: "4 1 3\n",
    },
    // one section without anything
    Row {
        input: b"\x00\x01\x00\x00\x00\x00\x00",
        answer: "1 0 0\n",
    },
    // a line of five, wagons 2 and 4, berths 0 and 3
    Row {
        input: b"\x00\x05\x00\x02\x00\x00\x00\x00\x00\x01\x00\x02\x00\x03\x02\x00\x01\x02\x01",
        answer: "5 2 3\n",
    },
    // a line of three, wagons 0 and 1, berths 1 and 2
    Row {
        input: b"\x00\x03\x00\x02\x00\x00\x00\x00\x00\x01\x01\x03\x02",
        answer: "3 2 2\n",
    },
    // one section, one wagon, no berth
    Row {
        input: b"\x00\x01\x00\x01\x00\x00\x01",
        answer: "1 1 0\n",
    },
    // too short to be a sheet
    Row {
        input: b"",
        answer: "no 1 0\n",
    },
    Row {
        input: b"\x00\x01\x00",
        answer: "no 1 0\n",
    },
    // no sections
    Row {
        input: b"\x00\x00\x00\x00",
        answer: "no 2 0\n",
    },
    Row {
        input: b"\x00\x00\x00\x00s\n",
        answer: "no 2 0\n",
    },
    // more than 512
    Row {
        input: b"\x02\x01\x00\x00",
        answer: "no 2 0\n",
    },
    Row {
        input: b"\xff\xff\x00\x00s\n",
        answer: "no 2 0\n",
    },
    // a byte is missing
    Row {
        input: b"\x00\x02\x00\x00\x00\x00\x00\x00\x00",
        answer: "no 1 0\n",
    },
    // the neck hangs on a section; a section hangs on itself, and a later one on a higher one
    Row {
        input: b"\x00\x02\x00\x00\x00\x01\x00\x00\x00\x00",
        answer: "no 3 0\n",
    },
    Row {
        input: b"\x00\x04\x00\x00\x00\x00\x00\x00\x00\x02\x00\x07\x00\x00\x00\x00",
        answer: "no 3 2\n",
    },
    // marks above 3, behind a fault of the tree and without one
    Row {
        input: b"\x00\x02\x00\x00\x00\x00\x00\x01\x04\x04",
        answer: "no 3 1\n",
    },
    Row {
        input: b"\x00\x03\x00\x00\x00\x00\x00\x00\x00\x00\x00\x04\xff",
        answer: "no 4 1\n",
    },
    // two wagons where one is stated, and lines after a refused sheet
    Row {
        input: b"\x00\x02\x00\x01\x00\x00\x00\x00\x01\x03s\n",
        answer: "no 5 0\n",
    },
    // a number with its bytes the other way round
    Row {
        input: b"\x04\x00\x01\x00",
        answer: "no 2 0\n",
    },
    // a step where nothing is due, an empty line, and a rest without an end
    Row {
        input: b"\x00\x01\x00\x00\x00\x00\x00s\n\nn",
        answer: "1 0 0\n- 0\nno 15\nno 15\n",
    },
    Row {
        input: b"\x00\x01\x00\x00\x00\x00\x00\n",
        answer: "1 0 0\nno 15\n",
    },
    // a wagon goes inward and back, and two sections that are not neighbours
    Row {
        input: b"\x00\x04\x00\x01\x00\x00\x00\x00\x00\x00\x00\x01\x00\x00\x02\x01m 3 1\nm 1 3\nm 0 3\n",
        answer: "4 1 3\nok 2\nok 3\nno 9\n",
    },
    // the same, stepped to its end between them
    Row {
        input: b"\x00\x04\x00\x01\x00\x00\x00\x00\x00\x00\x00\x01\x00\x00\x02\x01m 3 1\nm 1 3\ns\ns\ns\ns\nm 0 3\n",
        answer: "4 1 3\nok 2\nok 3\n3 1 2\n1 0 1\n0 2 0\n- 0\nno 9\n",
    },
    // no step while the numbers differ
    Row {
        input: b"\x00\x04\x00\x01\x00\x00\x00\x00\x00\x00\x00\x01\x00\x00\x02\x01s\np 1\ns\nt 0\ns\n",
        answer: "4 1 3\n3 1 2\nno 7\n1 0 1\nok 1\nno 10\n",
    },
    // into a filled section, out of an empty one, and no such section
    Row {
        input: b"\x00\x04\x00\x01\x00\x00\x00\x00\x00\x00\x00\x01\x00\x00\x02\x01p 1\nm 3 1\nm 0 1\nm 65535 0\nt 65535\n",
        answer: "4 1 3\nok 4\nno 7\nno 8\nno 6\nno 6\n",
    },
    // wagons and berths come and go, and a new page
    Row {
        input: b"\x00\x04\x00\x01\x00\x00\x00\x00\x00\x00\x00\x01\x00\x00\x02\x01b 3\nu 2\nt 3\np 0\nn\nt 3\nu 2\np 0\nb 3\n",
        answer: "4 1 3\nok 1\nok 0\nok 2\nok 2\nok 2\nno 8\nno 8\nno 7\nno 7\n",
    },
    // lines out of form: a step with more, leading zeros, blanks, a carriage return, numbers too large, parts too few and too many
    Row {
        input: b"\x00\x01\x00\x00\x00\x00\x00s \ns 0\nS\np 00\np 01\np  0\np 0 \np 0\r\np\np \np 65536\np 99999999999999999999\nn \nn 0\nm 0\nm 0 0 0\nP 0\n0\n",
        answer: "1 0 0\nno 15\nno 15\nno 15\nno 15\nno 15\nno 15\nno 15\nno 15\nno 15\nno 15\nno 15\nno 15\nno 15\nno 15\nno 15\nno 15\nno 15\nno 15\n",
    },
    // a line without its end is not done
    Row {
        input: b"\x00\x01\x00\x00\x00\x00\x00p 0\nt 0",
        answer: "1 0 0\nok 0\nno 15\n",
    },
];

#[test]
fn answers(rt: HostRuntime) -> Result<(), Fail> {
    for row in ROWS {
        let text = day(rt.alloc(), row.input)?;
        assert_eq!(rt; text.as_str(), row.answer);
    }
    Ok(())
}

// So many bytes, 0 but for the first.
fn zeros_after(heap: Global, first: u8, len: usize) -> Result<Vec<u8>, Fail> {
    let mut bytes = Vec::new(heap);
    bytes.push(first)?;
    bytes.resize(len, 0)?;
    Ok(bytes)
}

// 512 sections that hang on the neck, and one more.
#[test]
fn most_sections(rt: HostRuntime) -> Result<(), Fail> {
    let mut bytes = zeros_after(rt.alloc(), 2, 4 + 3 * 512)?;
    assert_eq!(rt; day(rt.alloc(), bytes.as_slice())?.as_str(), "512 0 0\n");
    assert!(rt; bytes.len() > 1);
    bytes[1] = 1;
    assert_eq!(rt; day(rt.alloc(), bytes.as_slice())?.as_str(), "no 2 0\n");
    Ok(())
}

// The longest input, and one byte more; its sheet has no sections.
#[test]
fn longest_input(rt: HostRuntime) -> Result<(), Fail> {
    let mut bytes = zeros_after(rt.alloc(), 0, 65_536)?;
    assert_eq!(rt; day(rt.alloc(), bytes.as_slice())?.as_str(), "no 2 0\n");
    bytes.push(0)?;
    assert_eq!(rt; day(rt.alloc(), bytes.as_slice())?.as_str(), "no 12 0\n");
    Ok(())
}

// The act of each line, in their order.
#[test]
fn acts_of_lines(rt: HostRuntime) -> Result<(), Fail> {
    let said = [
        Act::Call(Call::Hand(Move { from: 3, to: 1 })),
        Act::Call(Call::Hand(Move { from: 1, to: 3 })),
        Act::Step,
    ];
    let acts = read_acts(rt.alloc(), b"m 3 1\nm 1 3\ns\n")?;
    assert_eq!(rt; acts.as_slice(), said.as_slice());
    let none = read_acts(rt.alloc(), b"")?;
    assert!(rt; none.is_empty());
    Ok(())
}

// A line that says no act: the first, one between others, and one without its end.
#[test]
fn acts_of_a_bad_line(rt: HostRuntime) -> Result<(), Fail> {
    let bad = Some(Unread::Refused(Refusal::BadLine));
    assert_eq!(rt; read_acts(rt.alloc(), b"\ns\n").err(), bad);
    assert_eq!(rt; read_acts(rt.alloc(), b"s\nm 3\ns\n").err(), bad);
    assert_eq!(rt; read_acts(rt.alloc(), b"s\nn").err(), bad);
    Ok(())
}
