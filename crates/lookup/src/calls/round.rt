// A text that starts a round: it is counted, copied to the round's own units and taken apart.
ghost use Rattle.std.specs.Prelude.{◌≡◌, ◌+◌, ◌*◌, ◌≤◌, None, Ok, Some, ℕ, length};
ghost use Rattle.tree.specs.Acceptances.{Allowed};
ghost use Rattle.tree.specs.Meanings.{Meaning};
ghost use Rattle.settings.specs.Tables.{Tables};
ghost use Rattle.lookup.specs.Areas.{Before};
ghost use Rattle.lookup.specs.Opened.{Placed, first_unit};
ghost use Rattle.lookup.specs.Turns.{Begins, Labelled, Moved, Sound, labels_row, marks_end, require_row, round_ends};

use crate::calls::area::{first_unit, put};
use crate::calls::{Asked, Fault, Move, OpenCall, ResolveContext, Stage};
use alias::Progress;
use specifier::Specifier;
use texts::{MAX_LEN, Place, Text};

// Which units of its round the path is written to, and path and fragment together.
const PATH: usize = 1;

const MARKED: usize = 2;

// A request whose labels are tried, with how far they were.
pub(crate) fn labelled(asked: Asked, progress: Progress) -> OpenCall
    ensures call_at_its_labels { result ≡ labels_row asked progress }
{
    OpenCall {
        asked,
        stage: Stage::Labels(progress),
    }
}

// Path and fragment together are tried as a path, with no fragment; the path alone comes behind.
fn with_fragment_first(
    work: &mut [u8],
    asked: Asked,
    fragment: Place,
    context: ResolveContext,
) -> (Move, ResolveContext)
    requires room { 256 * first_unit context.rounds ≤ length work.old }
    requires few { context.rounds ≤ 65536 }
    requires labelled { Labelled context asked }
    requires its_round { context.rounds ≡ asked.round + 1 }
    requires low_directory { Before (256 * (first_unit asked.round + 2)) asked.directory }
    requires low_path { Before (256 * (first_unit asked.round + 2)) asked.text }
    requires no_query { context.query ≡ None }
    requires its_fragment { context.fragment ≡ Some fragment }
    ensures one_move_of_the_round { Begins (marks_end work.old asked context) work.old asked context result.0 work.new result.1 }
{
    let mut text: Text<MAX_LEN> = Text::new(asked.text.of(work)).unwrap();
    if text.push_text(fragment.of(work)).is_err() {
        return (Move::Return(Err(Fault::TooLong)), context);
    }
    let both = put(work, first_unit(asked.round) + MARKED, text.as_bytes());
    let row = OpenCall {
        asked,
        stage: Stage::Marked(fragment),
    };
    let first = labelled(asked.with_text(both), Progress::new());
    (Move::Open(row, first), context.with_fragment(None))
}

// What a round does once its text is taken apart.
fn go_on(work: &mut [u8], asked: Asked, context: ResolveContext) -> (Move, ResolveContext)
    requires room { 256 * first_unit context.rounds ≤ length work.old }
    requires few { context.rounds ≤ 65536 }
    requires labelled { Labelled context asked }
    requires its_round { context.rounds ≡ asked.round + 1 }
    requires low_directory { Before (256 * (first_unit asked.round + 2)) asked.directory }
    requires low_path { Before (256 * (first_unit asked.round + 2)) asked.text }
    ensures one_move_of_the_round { Begins (marks_end work.old asked context) work.old asked context result.0 work.new result.1 }
{
    let alone = (Move::Stay(labelled(asked, Progress::new())), context);
    if context.query.is_some() {
        return alone;
    }
    match context.fragment {
        Some(fragment) => with_fragment_first(work, asked, fragment, context),
        None => alone,
    }
}

// The text of a round in its first unit is taken apart: its path goes to a unit of its own.
fn take_apart(work: &mut [u8], asked: Asked, context: ResolveContext) -> (Move, ResolveContext)
    requires room { 256 * first_unit context.rounds ≤ length work.old }
    requires few { context.rounds ≤ 65536 }
    requires its_round { context.rounds ≡ asked.round + 1 }
    requires sound { Sound context.rounds context }
    requires low_directory { Before (256 * first_unit asked.round) asked.directory }
    requires in_its_first_unit { asked.text.start ≡ 256 * first_unit asked.round }
    requires short { asked.text.len ≤ 255 }
    ensures one_move_of_the_round { Begins (round_ends work.old asked context) work.old asked context result.0 work.new result.1 }
{
    let request = asked.text.of(work);
    let Ok(specifier) = Specifier::parse(request) else {
        return (Move::Return(Err(Fault::Empty(asked.text))), context);
    };
    let mut bytes = [0; MAX_LEN];
    let len = specifier.write_path(request, &mut bytes).unwrap();
    let path = Place { start: 0, len }.of(&bytes);
    let path = put(work, first_unit(asked.round) + PATH, path);
    let context = context.taking(specifier, asked.text.start);
    go_on(work, asked.with_text(path), context)
}

// A text starts its round, unless all rounds were run: the round is counted, and the text goes to its first unit.
pub(crate) fn begin(
    work: &mut [u8],
    limit: usize,
    asked: Asked,
    context: ResolveContext,
) -> (Move, ResolveContext)
    requires few { limit ≤ 65536 }
    requires room { 256 * first_unit limit ≤ length work.old }
    requires placed { Placed (require_row asked) }
    requires comes_after { asked.round ≤ context.rounds }
    requires sound { Sound limit context }
    ensures one_move_of_the_call { (m : Meaning) (allowed : Allowed) (t : Tables) → Moved m allowed t limit work.old (require_row asked) (Ok None) context result.0 work.new result.1 }
{
    if context.rounds >= limit {
        return (Move::Return(Err(Fault::Recursion)), context);
    }
    let request: Text<MAX_LEN> = Text::new(asked.text.of(work)).unwrap();
    let text = put(work, first_unit(context.rounds), request.as_bytes());
    let asked = Asked {
        round: context.rounds,
        directory: asked.directory,
        text,
    };
    take_apart(work, asked, context.counted())
}
