// A call as a whole: what is refused before any lookup, the lookup, its texts, and the memory that was lent.
ghost use Rattle.std.specs.Prelude.{◌≡◌, ◌≤◌, ℕ, length};
ghost use Rattle.settings.specs.Meant.{tables};
ghost use Rattle.lookup.specs.Blank.{blank_call};
ghost use Rattle.lookup.specs.Opened.{Short, ended};
ghost use Rattle.lookup.specs.Turns.{Sound};
ghost use Rattle.lookup.specs.Outcomes.{answer, area_after, buffers_after, outcome_of, refusal, room_of, roomy, rows_after};
ghost use Rattle.lookup.specs.Resolutions.{early_error, resolution_of};
ghost use Rattle.texts.specs.Taken.{taken_unless};

use crate::calls::run::run;
use crate::calls::writing::{write, write_fault, write_mark};
use crate::calls::{Answer, Asked, Fault, OpenCall, ResolveContext, Stage};
use crate::resolution::{Found, Refused, Resolution, ResolveError};
use settings::Settings;
use specifier::{is_directory, is_request};
use texts::{MAX_LEN, Place};
use tree::{FileTree, Host, Policy};

// How many rounds a lookup runs at most.
const ROUNDS: usize = 64;

// 2,048 bytes and 16 rows for each round, which is more than a round uses.
/// The fewest bytes of the text area that a call asks for.
pub const MIN_AREA: usize = 131_072;

/// The fewest rows that a call asks for.
pub const MIN_ROWS: usize = 1_024;

// Whether as much memory is lent as a call asks for.
fn is_roomy(area: &[u8], rows: &[OpenCall], first: &[u8], second: &[u8], third: &[u8]) -> bool
    ensures as_much_as_is_asked_for { result ≡ roomy (room_of area.now rows.now first.now second.now third.now) }
{
    area.len() >= MIN_AREA
        && rows.len() >= MIN_ROWS
        && first.len() >= MAX_LEN
        && second.len() >= MAX_LEN
        && third.len() >= MAX_LEN
}

// What is refused before any lookup: too little memory, then the directory, then the request.
fn check(is_roomy: bool, directory: &[u8], request: &[u8]) -> Result<(), ResolveError>
    ensures first_check_that_fails { result ≡ taken_unless (early_error is_roomy directory.now request.now) }
{
    if !is_roomy {
        return Err(ResolveError::NoMemory);
    }
    if !is_directory(directory) {
        return Err(ResolveError::Directory);
    }
    if !is_request(request) {
        return Err(ResolveError::Request);
    }
    Ok(())
}

impl OpenCall {
    /// A row in which no call stands.
    pub fn blank() -> OpenCall
        ensures no_call { result ≡ blank_call }
    {
        let nowhere = Place { start: 0, len: 0 };
        OpenCall {
            asked: Asked {
                round: 0,
                directory: nowhere,
                text: nowhere,
            },
            stage: Stage::Require,
        }
    }
}

// Writes what a lookup ends in to the buffers, and says how long its texts are.
fn write_answer(
    area: &[u8],
    settings: &Settings,
    answer: Answer,
    context: ResolveContext,
    first: &mut [u8],
    second: &mut [u8],
    third: &mut [u8],
) -> Result<Found, Refused>
    requires short { Short answer }
    requires sound_context { (limit : ℕ) × Sound limit context }
    requires first_room { 255 ≤ length first.old }
    requires second_room { 255 ≤ length second.old }
    requires third_room { 255 ≤ length third.old }
    ensures number_and_lengths { record { outcome = result; rounds = context.rounds } ≡ resolution_of (outcome_of (ended area.now (tables settings.now).aliases answer context)) }
    ensures texts_in_the_buffers { (first.new, (second.new, third.new)) ≡ buffers_after (outcome_of (ended area.now (tables settings.now).aliases answer context)) (first.old, (second.old, third.old)) }
{
    match answer {
        Ok(Some(place)) => Ok(Found {
            path: write(place.of(area), first),
            query: write_mark(area, context.query, second),
            fragment: write_mark(area, context.fragment, third),
        }),
        // a lookup never ends in nothing
        Ok(None) => Err(write_fault(area, settings, Fault::Recursion, first, second)),
        Err(fault) => Err(write_fault(area, settings, fault, first, second)),
    }
}

/// Answers a request from a directory: texts are written to the buffers, and the memory is blank then; what is refused before the lookup leaves both as they were.
pub fn answer_call<H: Host, P: Policy>(
    host: &mut H,
    policy: &P,
    settings: &Settings,
    directory: &[u8],
    request: &[u8],
    area: &mut [u8],
    rows: &mut [OpenCall],
    first: &mut [u8],
    second: &mut [u8],
    third: &mut [u8],
) -> Resolution
    requires sound { H.FileTree.sound host.old }
    ensures answered_as_defined { result ≡ resolution_of (answer (H.FileTree.meaning host.old) (P.Policy.allowed policy.now) (tables settings.now) (room_of area.old rows.old first.old second.old third.old) directory.now request.now) }
    ensures buffers_as_defined { (first.new, (second.new, third.new)) ≡ buffers_after (answer (H.FileTree.meaning host.old) (P.Policy.allowed policy.now) (tables settings.now) (room_of area.old rows.old first.old second.old third.old) directory.now request.now) (first.old, (second.old, third.old)) }
    ensures area_as_defined { area.new ≡ area_after (refusal (room_of area.old rows.old first.old second.old third.old) directory.now request.now) area.old }
    ensures rows_as_defined { rows.new ≡ rows_after blank_call (refusal (room_of area.old rows.old first.old second.old third.old) directory.now request.now) rows.old }
    ensures same_meaning { H.FileTree.meaning host.new ≡ H.FileTree.meaning host.old }
    ensures still_sound { H.FileTree.sound host.new }
{
    if let Err(error) = check(
        is_roomy(area, rows, first, second, third),
        directory,
        request,
    ) {
        let outcome = Err(Refused {
            error,
            first: None,
            second: None,
        });
        return Resolution { outcome, rounds: 0 };
    }
    let (answer, context) = run(
        host, policy, settings, area, rows, ROUNDS, directory, request,
    );
    let outcome = write_answer(area, settings, answer, context, first, second, third);
    area.fill(0);
    rows.fill(OpenCall::blank());
    Resolution {
        outcome,
        rounds: context.rounds,
    }
}
