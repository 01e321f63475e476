// The stored sheets, given to the port.
ghost use Rattle.std.specs.Prelude.{◌≡◌, IfOk, map};
ghost use Rattle.replay.specs.Cases.{judged, stored};
ghost use Rattle.replay.specs.Replayed.{replayed};

use crate::case::Case;
use crate::verdict::Verdict;
use sheets::answer_sheet;
use std::alloc::{AllocError, Global};

/// Each stored sheet beside what the port writes for it.
pub fn replay<'a>(alloc: Global, cases: &[Case<'a>]) -> Result<Vec<Verdict<'a>>, AllocError>
    ensures every_sheet_in_its_order { IfOk result (λ verdicts. map judged verdicts.items ≡ map replayed (map stored cases.now)) }
{
    let mut verdicts = Vec::new(alloc);
    for case in cases {
        let answered = answer_sheet(alloc, case.sheet)?;
        verdicts.push(Verdict::of(*case, answered.as_slice()))?;
    }
    Ok(verdicts)
}
