// The labels of a request or of a candidate, one attempt after the other.
ghost use Rattle.std.specs.Prelude.{◌≡◌, ◌+◌, ◌*◌, ◌≤◌, ◌∷◌, List, None, Ok, ℕ, length, map};
ghost use Rattle.texts.specs.Parts.{text_at};
ghost use Rattle.settings.specs.Meant.{tables};
ghost use Rattle.settings.specs.Rows.{alias_of};
ghost use Rattle.alias.specs.Attempts.{Attempt as Tried};
ghost use Rattle.alias.specs.Left.{left, said};
ghost use Rattle.lookup.specs.Areas.{Before, OnlyIn};
ghost use Rattle.tree.specs.Acceptances.{Allowed};
ghost use Rattle.lookup.specs.Attempted.{Attempted, Next};
ghost use Rattle.lookup.specs.Opened.{first_unit};
ghost use Rattle.lookup.specs.Turns.{Labelled, Moved, labels_row};

use crate::calls::area::{first_unit, put};
use crate::calls::way::go_way;
use crate::calls::{Asked, Fault, Move, OpenCall, ResolveContext, Stage};
use alias::{Attempt, Progress, TooLong};
use settings::{AliasRow, Settings};
use texts::{MAX_LEN, Place};
use tree::{FileTree, Host};

// Which unit of its round an attempt is written to.
pub(crate) const ATTEMPT: usize = 5;

// An attempt on a request, with its text in a unit of the work text.
fn attempted(
    aliases: &[AliasRow],
    work: &mut [u8],
    unit: usize,
    request: Place,
    progress: &Progress,
    attempt: Result<Attempt, TooLong>,
    made: &[u8],
) -> Result<Place, Fault>
    requires room { 256 * unit + 256 ≤ length work.old }
    requires one_text { length made.now ≡ 255 }
    requires request_lies_below { Before (256 * unit) request }
    requires short_request { request.len ≤ 255 }
    ensures says_the_same { (after : List Tried) → Attempted work.new (map alias_of aliases.now) unit (said (map alias_of aliases.now) progress.now (text_at work.old request) made.now attempt ∷ after) result after }
    ensures only_its_unit_is_written { OnlyIn unit work.old work.new }
{
    match attempt {
        Ok(Attempt::Again(new)) => Ok(put(work, unit, new.text(progress.value(aliases), made))),
        Ok(Attempt::Ignored(len)) => {
            let path = Place { start: 0, len }.of(made);
            Err(Fault::Ignored(put(work, unit, path)))
        }
        Ok(Attempt::Unmatched) => Err(Fault::Unmatched(request, progress.place())),
        Err(TooLong) => Err(Fault::TooLong),
    }
}

// The next attempt of the labels on a request from a directory, if one is left; its text goes to a unit of the work text.
pub(crate) fn next_attempt<T: FileTree>(
    tree: &mut T,
    settings: &Settings,
    work: &mut [u8],
    unit: usize,
    directory: Place,
    request: Place,
    progress: Progress,
) -> (Option<Result<Place, Fault>>, Progress)
    requires sound { T.FileTree.sound tree.old }
    requires room { 256 * unit + 256 ≤ length work.old }
    requires request_lies_below { Before (256 * unit) request }
    requires short_request { request.len ≤ 255 }
    ensures next_of_the_attempts { Next work.new (tables settings.now).aliases unit (left (T.FileTree.meaning tree.old) (text_at work.old directory) (text_at work.old request) (tables settings.now).aliases progress) result.0 (left (T.FileTree.meaning tree.old) (text_at work.old directory) (text_at work.old request) (tables settings.now).aliases result.1) }
    ensures only_its_unit_is_written { OnlyIn unit work.old work.new }
    ensures same_meaning { T.FileTree.meaning tree.new ≡ T.FileTree.meaning tree.old }
    ensures still_sound { T.FileTree.sound tree.new }
{
    let aliases = settings.aliases();
    let mut made = [0; MAX_LEN];
    let mut then = progress;
    let next = then.next(
        tree,
        aliases,
        directory.of(work),
        request.of(work),
        &mut made,
    );
    match next {
        Some(attempt) => {
            let attempt = attempted(aliases, work, unit, request, &then, attempt, &made);
            (Some(attempt), then)
        }
        None => (None, then),
    }
}

// The labels on a request: its next attempt starts a round or ends the call; where none is left, the request goes its way.
pub(crate) fn on_labels<H: Host>(
    host: &mut H,
    settings: &Settings,
    work: &mut [u8],
    asked: Asked,
    progress: Progress,
    context: ResolveContext,
) -> (Move, ResolveContext)
    requires sound { H.FileTree.sound host.old }
    requires room { 256 * first_unit context.rounds ≤ length work.old }
    requires few { context.rounds ≤ 65536 }
    requires labelled { Labelled context asked }
    ensures one_move_of_the_call { (allowed : Allowed) (limit : ℕ) → context.rounds ≤ limit → Moved (H.FileTree.meaning host.old) allowed (tables settings.now) limit work.old (labels_row asked progress) (Ok None) context result.0 work.new result.1 }
    ensures same_meaning { H.FileTree.meaning host.new ≡ H.FileTree.meaning host.old }
    ensures still_sound { H.FileTree.sound host.new }
{
    let unit = first_unit(asked.round) + ATTEMPT;
    let (attempt, then) = next_attempt(
        host,
        settings,
        work,
        unit,
        asked.directory,
        asked.text,
        progress,
    );
    match attempt {
        Some(Ok(text)) => {
            let stage = Stage::Labels(then);
            let row = OpenCall { asked, stage };
            (Move::Open(row, asked.round_of(text)), context.loosened())
        }
        Some(Err(fault)) => (Move::Return(Err(fault)), context),
        None => {
            let next = go_way(host, settings, work, asked, context);
            (next, context)
        }
    }
}
