// A day's input: a siding's sheet and, directly after it, lines.
ghost use Rattle.std.specs.Prelude.{◌≡◌};
ghost use Rattle.daybook.specs.Input.{sheet_bytes, after_sheet};

// The most bytes that an input may have.
pub const MOST_BYTES: usize = 65_536;

// The byte that ends a line.
pub(crate) const LINE_END: u8 = b'\n';

// The sheet, and what follows it.
pub fn parted(input: &[u8]) -> (&[u8], &[u8])
    ensures sheet { result.0.now ≡ sheet_bytes input.now }
    ensures rest { result.1.now ≡ after_sheet input.now }
{
    // Two bytes say how many sections there are; an input without them is all sheet.
    let Some(sections) = input.first_chunk() else {
        return (input, &[]);
    };
    let size = 4 + 3 * usize::from(u16::from_be_bytes(*sections));
    input.split_at_checked(size).unwrap_or((input, &[]))
}
