// The cases of the stored list.
ghost use Rattle.std.specs.Prelude.{◌≡◌, ◌<◌, IfOk, IfSome, length, map, option_map};
ghost use Rattle.replay.specs.Cases.{stored};
ghost use Rattle.replay.specs.Lists.{cases_in, front_case};

use crate::group::Group;
use crate::header::Header;
use crate::split::split_lines;
use lines::first_line;
use std::alloc::{AllocError, Global};

/// A stored sheet with the rows that the original writes for it.
#[derive(Clone, Copy, Debug)]
pub struct Case<'a> {
    pub group: Group,
    pub name: &'a [u8],
    pub sheet: &'a [u8],
    pub rows: &'a [u8],
}

impl<'a> Case<'a> {
    /// The case at the front of a list, and what stands behind it.
    #[tactic(auto, unfolding(crate::specs::Lists::front_case))]
    fn read(list: &'a [u8]) -> Option<(Case<'a>, &'a [u8])>
        ensures case_at_the_front { option_map (λ c. record { case = stored c.0; rest = c.1.now }) result ≡ front_case list.now }
        ensures something_is_taken { IfSome result (λ c. length c.1.now < length list.now) }
    {
        let (line, body) = first_line(list);
        let header = Header::read(line)?;
        let (sheet, behind) = split_lines(body, header.sheet)?;
        let (rows, rest) = split_lines(behind, header.rows)?;
        let case = Case {
            group: header.group,
            name: header.name,
            sheet,
            rows,
        };
        Some((case, rest))
    }
}

/// The cases of a list; none if it has anything but cases.
pub fn cases<'a>(alloc: Global, list: &'a [u8]) -> Result<Option<Vec<Case<'a>>>, AllocError>
    ensures cases_in_their_order { IfOk result (λ found. option_map (λ cs. map stored cs.items) found ≡ cases_in list.now) }
{
    let mut cases = Vec::new(alloc);
    let mut left = list;
    while !left.is_empty() {
        let Some((case, rest)) = Case::read(left) else {
            return Ok(None);
        };
        cases.push(case)?;
        left = rest;
    }
    Ok(Some(cases))
}
