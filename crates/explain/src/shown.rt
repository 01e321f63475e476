// Bytes as a person can read them.
ghost use Rattle.std.specs.Prelude.{◌≡◌, ◌<◌, [], ◌∷◌, false, Some};
ghost use Rattle.std.specs.Fmt.{digit_glyph};
ghost use Rattle.explain.specs.Legible.{legible, legible_byte};

use std::fmt;
use texts::is_printable;

// The digit of a number in hexadecimal.
fn digit(n: u8) -> &'static str
    requires below_16 { n < 16 }
    ensures hexadecimal_digit { result.now ≡ digit_glyph false n ∷ [] }
{
    match n {
        0 => "0",
        1 => "1",
        2 => "2",
        3 => "3",
        4 => "4",
        5 => "5",
        6 => "6",
        7 => "7",
        8 => "8",
        9 => "9",
        10 => "a",
        11 => "b",
        12 => "c",
        13 => "d",
        14 => "e",
        _ => "f",
    }
}

// A byte that prints as it is, any other as `\xNN`.
#[derive(Clone, Copy)]
struct ShownByte(u8);

impl fmt::Display for ShownByte {
    ghost output = { λ b. Some (legible_byte b.0) };

    fn fmt<W: fmt::Write>(&self, f: &mut fmt::Formatter<W>) -> fmt::Result {
        let b = self.0;
        if is_printable(&[b]) {
            write!(f, "{}", char::from(b))
        } else {
            // each digit by itself, which is quicker than a number that is padded
            write!(f, "\\x{}{}", digit(b / 16), digit(b % 16))
        }
    }
}

/// Bytes that print as they are, any other as `\xNN`, and no bytes at all as `(empty)`.
#[derive(Clone, Copy)]
pub struct Shown<'a>(pub &'a [u8]);

impl fmt::Display for Shown<'_> {
    ghost output = { λ s. Some (legible s.0.now) };

    fn fmt<W: fmt::Write>(&self, f: &mut fmt::Formatter<W>) -> fmt::Result {
        if self.0.is_empty() {
            return write!(f, "(empty)");
        }
        for b in self.0 {
            write!(f, "{}", ShownByte(*b))?;
        }
        Ok(())
    }
}
