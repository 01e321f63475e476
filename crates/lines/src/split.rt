// Taking a sheet apart into its lines.
ghost use Rattle.std.specs.Prelude.{◌≡◌};
ghost use Rattle.lines.specs.Sheets.{behind_line, line_of, Whole};

use texts::position;

/// The first line of `input`, up to byte 10 or the end, and what stands behind it.
pub fn first_line(input: &[u8]) -> (&[u8], &[u8])
    ensures up_to_the_line_end { result.0.now ≡ line_of input.now }
    ensures rest_behind_the_line_end { result.1.now ≡ behind_line input.now }
    ensures nothing_is_lost { Whole input.now }
{
    let end = position(input, b'\n');
    if end == input.len() {
        return (input, &[]);
    }
    (&input[0..end], &input[end + 1..])
}
