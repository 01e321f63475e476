// The candidates of a path that is looked for, one after the other, and the test of one.
ghost use Rattle.std.specs.Prelude.{◌≡◌, ◌+◌, ◌*◌, ◌≤◌, None, Ok, ℕ, length, map};
ghost use Rattle.texts.specs.Parts.{text_at};
ghost use Rattle.tree.specs.Acceptances.{Allowed};
ghost use Rattle.settings.specs.Meant.{tables};
ghost use Rattle.candidates.specs.Left.{left};
ghost use Rattle.lookup.specs.Areas.{Before, OnlyIn};
ghost use Rattle.lookup.specs.Opened.{first_unit};
ghost use Rattle.lookup.specs.Tried.{NextTried};
ghost use Rattle.lookup.specs.Turns.{Moved, Testing, Trying, test_row, trying_row};

use crate::calls::area::{first_unit, put};
use crate::calls::labels::{ATTEMPT, next_attempt};
use crate::calls::{Asked, Fault, Move, OpenCall, ResolveContext, Stage};
use alias::Progress;
use candidates::Walk;
use settings::Settings;
use texts::{MAX_LEN, Place};
use tree::{FileTree, Host, Policy, is_acceptable};

// Which unit of its round a candidate is written to.
const CANDIDATE: usize = 4;

// The next candidate of a path, if one is left; its text goes to a unit of the work text.
pub(crate) fn next_candidate<H: Host>(
    host: &mut H,
    settings: &Settings,
    work: &mut [u8],
    unit: usize,
    path: Place,
    fully_specified: bool,
    walk: Walk,
) -> (Option<Result<Place, Fault>>, Walk)
    requires sound { H.FileTree.sound host.old }
    requires room { 256 * unit + 256 ≤ length work.old }
    requires path_lies_below { Before (256 * unit) path }
    requires short_path { path.len ≤ 255 }
    ensures next_of_the_candidates { NextTried work.new unit (left (tables settings.now) fully_specified (text_at work.old path) (H.FileTree.meaning host.old) walk) result.0 (left (tables settings.now) fully_specified (text_at work.old path) (H.FileTree.meaning host.old) result.1) }
    ensures only_its_unit_is_written { OnlyIn unit work.old work.new }
    ensures same_meaning { H.FileTree.meaning host.new ≡ H.FileTree.meaning host.old }
    ensures still_sound { H.FileTree.sound host.new }
{
    let mut text = [0; MAX_LEN];
    let mut then = walk;
    let next = then.next(host, settings, fully_specified, path.of(work), &mut text);
    match next {
        Some(Ok(len)) => {
            let candidate = put(work, unit, Place { start: 0, len }.of(&text));
            (Some(Ok(candidate)), then)
        }
        Some(Err(candidates::Fault::BrokenManifest)) => {
            (Some(Err(Fault::BrokenManifest(path))), then)
        }
        Some(Err(candidates::Fault::TooLong)) => (Some(Err(Fault::TooLong)), then),
        None => (None, then),
    }
}

// The candidates of a path: the next one is tested, or the call ends.
pub(crate) fn on_candidates<H: Host>(
    host: &mut H,
    settings: &Settings,
    work: &mut [u8],
    asked: Asked,
    path: Place,
    fully_specified: bool,
    walk: Walk,
    context: ResolveContext,
) -> Move
    requires sound { H.FileTree.sound host.old }
    requires room { 256 * first_unit context.rounds ≤ length work.old }
    requires few { context.rounds ≤ 65536 }
    requires trying { Trying context asked path }
    ensures one_move_of_the_call { (allowed : Allowed) (limit : ℕ) → context.rounds ≤ limit → Moved (H.FileTree.meaning host.old) allowed (tables settings.now) limit work.old (trying_row asked path fully_specified walk) (Ok None) context result work.new context }
    ensures same_meaning { H.FileTree.meaning host.new ≡ H.FileTree.meaning host.old }
    ensures still_sound { H.FileTree.sound host.new }
{
    let unit = first_unit(asked.round) + CANDIDATE;
    let (candidate, then) = next_candidate(host, settings, work, unit, path, fully_specified, walk);
    match candidate {
        Some(Ok(text)) => {
            let stage = Stage::Candidates(path, fully_specified, then);
            let test = OpenCall {
                asked: asked.with_text(text),
                stage: Stage::Tested(Progress::new()),
            };
            Move::Open(OpenCall { asked, stage }, test)
        }
        Some(Err(fault)) => Move::Return(Err(fault)),
        None => Move::Return(Err(Fault::NotFound(asked.text))),
    }
}

// The test of a candidate: the labels on it come first; where they make nothing of it, it must be acceptable.
pub(crate) fn on_test<H: Host, P: Policy>(
    host: &mut H,
    policy: &P,
    settings: &Settings,
    work: &mut [u8],
    asked: Asked,
    progress: Progress,
    context: ResolveContext,
) -> (Move, ResolveContext)
    requires sound { H.FileTree.sound host.old }
    requires room { 256 * first_unit context.rounds ≤ length work.old }
    requires few { context.rounds ≤ 65536 }
    requires testing { Testing context asked }
    ensures one_move_of_the_call { (limit : ℕ) → context.rounds ≤ limit → Moved (H.FileTree.meaning host.old) (P.Policy.allowed policy.now) (tables settings.now) limit work.old (test_row asked progress) (Ok None) context result.0 work.new result.1 }
    ensures same_meaning { H.FileTree.meaning host.new ≡ H.FileTree.meaning host.old }
    ensures still_sound { H.FileTree.sound host.new }
{
    let unit = first_unit(asked.round) + ATTEMPT;
    let (attempt, then) = next_attempt(
        host, settings, work, unit, asked.text, asked.text, progress,
    );
    match attempt {
        Some(Ok(text)) => {
            let stage = Stage::Tested(then);
            let row = OpenCall { asked, stage };
            (Move::Open(row, asked.round_from(text)), context.loosened())
        }
        Some(Err(fault)) => (Move::Return(Err(fault)), context),
        None => {
            let path = asked.text.of(work);
            let passes = is_acceptable(host, policy, settings.restrictions(), path);
            let answer = if passes { Some(asked.text) } else { None };
            (Move::Return(Ok(answer)), context)
        }
    }
}
