// The sentence on a line that is refused.
ghost use Rattle.std.specs.Prelude.{Some};
ghost use Rattle.explain.specs.Causes.{refused_sentence};

use crate::cause::Cause;
use crate::shown::Shown;
use std::fmt;

/// Why a line is refused, with the text that is to blame.
#[derive(Clone, Copy)]
pub struct Refused<'a> {
    pub line: u64,
    pub cause: Cause,
    pub text: &'a [u8],
}

impl fmt::Display for Refused<'_> {
    ghost output = { λ r. Some (refused_sentence r.line r.cause r.text.now) };

    fn fmt<W: fmt::Write>(&self, f: &mut fmt::Formatter<W>) -> fmt::Result {
        let (line, cause) = (self.line, self.cause);
        let number = cause.number();
        write!(
            f,
            "Line {line} is refused with {number}, since {cause}: {}",
            Shown(self.text)
        )
    }
}
