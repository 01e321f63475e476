// One move of an open call, by its stage and what came back.
ghost use Rattle.std.specs.Prelude.{◌≡◌, ◌*◌, ◌≤◌, List, None, Ok, ℕ, false, length, true};
ghost use Rattle.tree.specs.Acceptances.{Allowed};
ghost use Rattle.tree.specs.Meanings.{Meaning};
ghost use Rattle.settings.specs.Meant.{tables};
ghost use Rattle.settings.specs.Tables.{Alias, Tables};
ghost use Rattle.lookup.specs.Faults.{passes_on, stays};
ghost use Rattle.lookup.specs.Opened.{Begun, Placed, fault_of, first_unit};
ghost use Rattle.lookup.specs.Turns.{IsTold, Moved, Sound, marked_row};

use crate::calls::labels::on_labels;
use crate::calls::round::{begin, labelled};
use crate::calls::trying::{on_candidates, on_test};
use crate::calls::{Answer, Asked, Fault, Move, OpenCall, ResolveContext, Stage};
use alias::Progress;
use settings::Settings;
use texts::Place;
use tree::{FileTree, Host, Policy};

impl Fault {
    // Whether a label's next value follows.
    fn passes_on(self) -> bool
        ensures followed_by_the_next_value { (w : List ℕ) (labels : List Alias) → result ≡ passes_on (fault_of w labels self) }
    {
        matches!(self, Fault::NotFound(_) | Fault::Unmatched(_, _))
    }

    // Whether nothing catches it.
    fn stays(self) -> bool
        ensures caught_by_nothing { (w : List ℕ) (labels : List Alias) → result ≡ stays (fault_of w labels self) }
    {
        matches!(self, Fault::TooLong)
    }
}

impl Stage {
    // What a call at this stage is told: a fault that it catches counts as nothing.
    fn told(self, back: Answer) -> Answer
        ensures caught_faults_are_nothing { IsTold self back result }
    {
        match (self, back) {
            (Stage::Marked(_), Err(fault)) if !fault.stays() => Ok(None),
            (Stage::Labels(_) | Stage::Tested(_), Err(fault)) if fault.passes_on() => Ok(None),
            _ => back,
        }
    }
}

// Whether nothing came back, or what counts as nothing.
fn is_nothing(told: Answer) -> bool
    ensures nothing_if_so { result ≡ true → told ≡ Ok None }
    ensures an_end_if_not { result ≡ false → told ≡ Ok None → ⊥ }
{
    matches!(told, Ok(None))
}

// The fragment is put back, and the path alone is tried.
fn put_back(asked: Asked, fragment: Place, context: ResolveContext) -> (Move, ResolveContext)
    requires placed { Placed (marked_row asked fragment) }
    requires begun { Begun context.rounds (marked_row asked fragment) }
    requires sound { Sound context.rounds context }
    ensures one_move_of_the_call { (m : Meaning) (allowed : Allowed) (t : Tables) (limit : ℕ) (w : List ℕ) → context.rounds ≤ limit → Moved m allowed t limit w (marked_row asked fragment) (Ok None) context result.0 w result.1 }
{
    let row = labelled(asked, Progress::new());
    (Move::Stay(row), context.with_fragment(Some(fragment)))
}

// One move of an open call.
pub(crate) fn step<H: Host, P: Policy>(
    host: &mut H,
    policy: &P,
    settings: &Settings,
    work: &mut [u8],
    limit: usize,
    row: OpenCall,
    back: Answer,
    context: ResolveContext,
) -> (Move, ResolveContext)
    requires sound_host { H.FileTree.sound host.old }
    requires few { limit ≤ 65536 }
    requires room { 256 * first_unit limit ≤ length work.old }
    requires placed { Placed row }
    requires begun { Begun context.rounds row }
    requires sound { Sound limit context }
    ensures one_move_of_the_call { Moved (H.FileTree.meaning host.old) (P.Policy.allowed policy.now) (tables settings.now) limit work.old row back context result.0 work.new result.1 }
    ensures same_meaning { H.FileTree.meaning host.new ≡ H.FileTree.meaning host.old }
    ensures still_sound { H.FileTree.sound host.new }
{
    let told = row.stage.told(back);
    if !is_nothing(told) {
        return (Move::Return(told), context);
    }
    let asked = row.asked;
    match row.stage {
        Stage::Require => begin(work, limit, asked, context),
        Stage::Marked(fragment) => put_back(asked, fragment, context),
        Stage::Labels(progress) => on_labels(host, settings, work, asked, progress, context),
        Stage::Candidates(path, fully_specified, walk) => {
            let next = on_candidates(
                host,
                settings,
                work,
                asked,
                path,
                fully_specified,
                walk,
                context,
            );
            (next, context)
        }
        Stage::Tested(progress) => on_test(host, policy, settings, work, asked, progress, context),
    }
}
