// The sentence on a quiet question.
ghost use Rattle.std.specs.Prelude.{Some};
ghost use Rattle.std.specs.Option.{option_map};
ghost use Rattle.texts.specs.Held.{bytes_of};
ghost use Rattle.explain.specs.Quiet.{quiet_sentence};

use crate::shown::Shown;
use std::fmt;
use texts::{MAX_LEN, Text};

/// Where a lookup of a quiet question ends: in a path, or in 22 if there is none.
#[derive(Clone, Copy)]
pub struct QuietEnd {
    pub path: Option<Text<MAX_LEN>>,
}

impl fmt::Display for QuietEnd {
    ghost output = { λ e. Some (quiet_sentence (option_map bytes_of e.path)) };

    fn fmt<W: fmt::Write>(&self, f: &mut fmt::Formatter<W>) -> fmt::Result {
        match self.path {
            Some(path) => write!(
                f,
                "  The request is quiet: by quiet_request_gives_the_first_acceptable_candidate it ends in {} after 1 round",
                Shown(path.as_bytes())
            ),
            None => write!(
                f,
                "  The request is quiet: by nothing_is_found_exactly_when_no_candidate_is_acceptable it is refused with 22 after 1 round"
            ),
        }
    }
}
