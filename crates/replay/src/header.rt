// The line in front of a stored sheet.
ghost use Rattle.std.specs.Prelude.{◌≡◌, ◌≤◌, OnSome, length, option_map};
ghost use Rattle.replay.specs.Cases.{heading};
ghost use Rattle.replay.specs.Lists.{heading_of};

use crate::group::Group;
use lines::{HEAD_LEN, Head};

/// What stands in front of a stored sheet: its group, how many lines it has, how many rows there are, and its name.
#[derive(Clone, Copy, Debug)]
pub struct Header<'a> {
    pub group: Group,
    pub sheet: u16,
    pub rows: u16,
    pub name: &'a [u8],
}

impl<'a> Header<'a> {
    /// The header in a line: its three columns, and then the name.
    #[tactic(auto, using(crate::proofs::Heads::head_has_12), unfolding(crate::specs::Lists::heading_of))]
    pub fn read(line: &'a [u8]) -> Option<Header<'a>>
        ensures header_in_the_line { option_map heading result ≡ heading_of line.now }
        ensures at_least_12_bytes { OnSome result (12 ≤ length line.now) }
    {
        let head = Head::read(line).ok()?;
        let group = Group::of(head.kind)?;
        Some(Header {
            group,
            sheet: head.first,
            rows: head.second,
            name: &line[HEAD_LEN..],
        })
    }
}
