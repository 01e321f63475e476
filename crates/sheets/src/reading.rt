// Reading a sheet, line by line: entries go into the tables, all else is left to do.
ghost use Rattle.std.specs.Prelude.{◌≡◌, ◌+◌, ◌^◌, ◌<◌, ◌++◌, Bool, IfOk, List, Option, length, map, take, drop};
ghost use Rattle.std.specs.Option.{option_map};
ghost use Rattle.lines.specs.Sheets.{content_of};
ghost use Rattle.listing.specs.Entries.{rows};
ghost use Rattle.settings.specs.Meant.{tables};
ghost use Rattle.texts.specs.Texts.{Text};
ghost use Rattle.sheets.specs.declared.task.Task.TheVariants as task;
ghost use Rattle.sheets.specs.Reading.{State, after_entry, after_line, after_sheet, leaving};
ghost use Rattle.sheets.specs.Tasks.{Todo, asked_by, closes, letting_go, task_in};

use crate::entry::{refuse, take};
use crate::refusal::Refusal;
use crate::task::Task;
use lines::{HEAD_LEN, Line, first_line};
use listing::Listing;
use settings::Settings;
use std::alloc::{AllocError, Global};
use texts::Place;

// Kinds are numbers here, since a sheet may write any.
// The kind of a line that resolves a request.
const RESOLVES: u16 = 40;

// The kind of a line that lets go of what is only kept to answer faster.
const FORGETS: u16 = 41;

// What a line that resolves a request leaves to do, where it begins at `start` in its sheet: its texts stand behind its head.
fn resolve(line: Line, start: usize) -> Task
    requires within_memory { start + (12 + (length line.first.now + length line.second.now)) < 2 ^ 64 }
    ensures both_texts_behind_the_head { result ≡ task.Resolve (record { start = start + 12; len = length line.entry.first.now }) (record { start = start + 12 + length line.entry.first.now; len = length line.entry.second.now }) }
{
    let directory = Place {
        start: start + HEAD_LEN,
        len: line.first.len(),
    };
    let request = Place {
        start: directory.start + directory.len,
        len: line.second.len(),
    };
    Task::Resolve { directory, request }
}

// What a line that lets go leaves to do; it has no text.
fn forget(line: Line) -> Task
    ensures forgets_or_refuses_texts { (sheet : Text) → task_in sheet result ≡ letting_go line.entry.first.now line.entry.second.now }
{
    if line.first.is_empty() && line.second.is_empty() {
        Task::Forget
    } else {
        Task::Refused(Refusal::Texts)
    }
}

// What a line that asks for a call leaves to do, where the line begins at `start` in its sheet; any other line is none.
fn asked(line: &[u8], start: usize) -> Option<Task>
    requires within_memory { start + length line.now < 2 ^ 64 }
    ensures asked_by_the_line { (sheet : Text) → line.now ≡ take (length line.now) (drop start sheet) → option_map (task_in sheet) result ≡ asked_by (content_of line.now) }
{
    let Ok(content) = Line::read(line) else {
        return None;
    };
    match content.kind {
        RESOLVES => Some(resolve(content, start)),
        FORGETS => Some(forget(content)),
        _ => None,
    }
}

// Whether a task is a call, which closes the tables.
fn is_call(task: Task) -> bool
    ensures closes_the_tables { (sheet : Text) → result ≡ closes (task_in sheet task) }
{
    match task {
        Task::Refused(_) => false,
        Task::Resolve { .. } => true,
        Task::Forget => true,
    }
}

// What an entry leaves to do: nothing if it is taken.
fn enter(
    listing: &mut Listing,
    settings: &mut Settings,
    is_closed: bool,
    line: &[u8],
) -> Option<Task>
    ensures taken_or_refused { (sheet : Text) (done : List Todo) → record { rows = rows listing.new; tables = tables settings.new; closed = is_closed; todo = done ++ leaving (option_map (task_in sheet) result) } ≡ after_entry is_closed (record { rows = rows listing.old; tables = tables settings.old; closed = is_closed; todo = done }) line.now }
{
    if is_closed {
        return Some(Task::Refused(refuse(listing, settings, line)));
    }
    match take(listing, settings, line) {
        Ok(()) => None,
        Err(refusal) => Some(Task::Refused(refusal)),
    }
}

// What a line leaves to do, where it begins at `start` in its sheet; the first call closes the tables.
fn read_line(
    listing: &mut Listing,
    settings: &mut Settings,
    is_closed: &mut bool,
    line: &[u8],
    start: usize,
) -> Option<Task>
    requires within_memory { start + length line.now < 2 ^ 64 }
    ensures after_the_line { (sheet : Text) (done : List Todo) → line.now ≡ take (length line.now) (drop start sheet) → record { rows = rows listing.new; tables = tables settings.new; closed = is_closed.new; todo = done ++ leaving (option_map (task_in sheet) result) } ≡ after_line (record { rows = rows listing.old; tables = tables settings.old; closed = is_closed.old; todo = done }) line.now }
{
    let Some(task) = asked(line, start) else {
        return enter(listing, settings, *is_closed, line);
    };
    *is_closed = *is_closed || is_call(task);
    Some(task)
}

/// Reads a sheet: its entries fill the listing and the settings until the first call closes them; its other lines are left to do.
pub fn read(
    alloc: Global,
    listing: &mut Listing,
    settings: &mut Settings,
    sheet: &[u8],
) -> Result<Vec<Task>, AllocError>
    ensures listing_filled_line_after_line { IfOk result (λ _. rows listing.new ≡ (after_sheet (rows listing.old) (tables settings.old) sheet.now).rows) }
    ensures settings_filled_line_after_line { IfOk result (λ _. tables settings.new ≡ (after_sheet (rows listing.old) (tables settings.old) sheet.now).tables) }
    ensures all_else_left_to_do { IfOk result (λ tasks. map (task_in sheet.now) tasks.items ≡ (after_sheet (rows listing.old) (tables settings.old) sheet.now).todo) }
{
    let mut tasks = Vec::new(alloc);
    let mut is_closed = false;
    let mut rest = sheet;
    while !rest.is_empty() {
        let start = sheet.len() - rest.len();
        let (line, behind) = first_line(rest);
        if let Some(task) = read_line(listing, settings, &mut is_closed, line, start) {
            tasks.push(task)?;
        }
        rest = behind;
    }
    Ok(tasks)
}
