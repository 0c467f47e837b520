// A line, read as the act that it says.
ghost use Rattle.std.specs.Prelude.{◌≡◌, Some, None, MatchOption};
ghost use Rattle.daybook.specs.Line.{Says, line_of, act_of, move_of, section_of, at_end, number_of, digits_from};

use crate::input::LINE_END;
use motion::calls::{Act, Call};
use motion::moves::Move;

const BLANK: u8 = b' ';

// The act that a line says, if it says one.
pub fn read_line(line: &[u8]) -> Option<Act>
    ensures meant { result ≡ line_of line.now }
    ensures form { Says line.now result }
{
    let (letter, rest) = line.split_first()?;
    read_act(*letter, rest)
}

// The act of a letter and what follows it.
fn read_act(letter: u8, rest: &[u8]) -> Option<Act>
    ensures { result ≡ act_of letter rest.now }
{
    match char::from(letter) {
        'p' => Some(Act::Call(Call::Put(read_section(rest)?))),
        't' => Some(Act::Call(Call::Take(read_section(rest)?))),
        'b' => Some(Act::Call(Call::Mark(read_section(rest)?))),
        'u' => Some(Act::Call(Call::Unmark(read_section(rest)?))),
        'm' => Some(Act::Call(Call::Hand(read_move(rest)?))),
        'n' if is_end(rest) => Some(Act::Call(Call::Turn)),
        's' if is_end(rest) => Some(Act::Step),
        _ => None,
    }
}

// The two sections that end a line.
fn read_move(rest: &[u8]) -> Option<Move>
    ensures { result ≡ move_of rest.now }
{
    let (from, rest) = read_number(rest)?;
    let to = read_section(rest)?;
    Some(Move { from, to })
}

// The section that ends a line.
fn read_section(rest: &[u8]) -> Option<u16>
    ensures { result ≡ section_of rest.now }
{
    let (section, rest) = read_number(rest)?;
    is_end(rest).then_some(section)
}

fn is_end(rest: &[u8]) -> bool
    ensures { result ≡ at_end rest.now }
{
    matches!(rest, [LINE_END])
}

// A blank and a number, and what follows them; after a 0 it has no more digits.
fn read_number(rest: &[u8]) -> Option<(u16, &[u8])>
    ensures { MatchOption result (number_of rest.now ≡ None) (λ p. number_of rest.now ≡ Some (p.0, p.1.now)) }
{
    let [BLANK, rest @ ..] = rest else {
        return None;
    };
    match rest {
        [b'0', after @ ..] => Some((0, after)),
        [b'1'..=b'9', ..] => read_digits(rest),
        _ => None,
    }
}

// The number that the digits at the start make, and what follows them. It stops at the digit that makes the number too
// large, however many come after it. A loop: to cut the digits off and parse them goes through each three times.
fn read_digits(rest: &[u8]) -> Option<(u16, &[u8])>
    ensures { MatchOption result (digits_from 0 rest.now ≡ None) (λ p. digits_from 0 rest.now ≡ Some (p.0, p.1.now)) }
{
    let mut number = 0u16;
    for (n, b) in rest.iter().enumerate() {
        if !b.is_ascii_digit() {
            return Some((number, &rest[n..]));
        }
        number = u16::try_from(10 * u32::from(number) + u32::from(*b - b'0')).ok()?;
    }
    None
}
