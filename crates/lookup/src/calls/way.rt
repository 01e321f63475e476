// The way of a request that no label rewrites.
ghost use Rattle.std.specs.Prelude.{◌≡◌, ◌+◌, ◌*◌, ◌<◌, ◌≤◌, ℕ, List, length, map};
ghost use Rattle.texts.specs.Held.{bytes_of};
ghost use Rattle.texts.specs.Parts.{parts, text_at};
ghost use Rattle.specifier.specs.Branches.{branch};
ghost use Rattle.tree.specs.Acceptances.{Allowed};
ghost use Rattle.tree.specs.Meanings.{kind_of, lookup_of};
ghost use Rattle.alias.specs.Answers.{AskedIf};
ghost use Rattle.settings.specs.Meant.{tables};
ghost use Rattle.settings.specs.Tables.{Alias};
ghost use Rattle.lookup.specs.Areas.{Before, OnlyIn};
ghost use Rattle.lookup.specs.Calls.{again, plugged};
ghost use Rattle.lookup.specs.Lookups.{answered_by, by_way, look};
ghost use Rattle.lookup.specs.Moves.{label_moves, weights};
ghost use Rattle.lookup.specs.Opened.{Short, context_of, ended, first_unit, shown};
ghost use Rattle.alias.specs.declared.attempts.Progress.{Progress};
ghost use Rattle.lookup.specs.Turns.{EndsShort, Kept, Labelled, came_back, labels_row, rows_of};

use crate::calls::area::{first_unit, put};
use crate::calls::{Answer, Asked, Fault, Move, OpenCall, ResolveContext, Stage};
use candidates::{Walk, asks_for_directory};
use paths::joined;
use settings::Settings;
use specifier::Branch;
use texts::{MAX_LEN, Place, Text, trim_final_slashes};
use tree::{Broken, FileTree, Host, Kind, Way};

// Looks for a path: its candidates are tried, or in context mode it is a directory.
fn look<H: Host>(
    host: &mut H,
    settings: &Settings,
    work: &mut [u8],
    unit: usize,
    asked: Asked,
    context: ResolveContext,
    path: &Text<MAX_LEN>,
) -> Move
    requires sound { H.FileTree.sound host.old }
    requires its_unit { unit ≡ first_unit asked.round }
    requires room { 256 * unit + 1536 ≤ length work.old }
    requires labelled { Labelled context asked }
    ensures looks_for_the_path { (allowed : Allowed) (limit : ℕ) → look (H.FileTree.meaning host.old) allowed (tables settings.now) (again (H.FileTree.meaning host.old) allowed (tables settings.now) limit) (text_at work.old asked.text) (bytes_of path.now) (context_of work.old context) ≡ plugged (H.FileTree.meaning host.old) allowed (tables settings.now) limit (map (shown (H.FileTree.meaning host.old) (tables settings.now) work.new) (rows_of result)) (came_back work.new (tables settings.now).aliases result context) }
    ensures fewer_moves { weights (tables settings.now) (map (shown (H.FileTree.meaning host.old) (tables settings.now) work.new) (rows_of result)) < label_moves (tables settings.now) 0 }
    ensures well_kept { (p : Progress) → Kept context.rounds (labels_row asked p) result }
    ensures ends_in_a_short_text { EndsShort result }
    ensures only_its_unit_is_written { OnlyIn (unit + 3) work.old work.new }
    ensures asked_once_in_context_mode { AskedIf H.FileTree.steps (tables settings.now).context (kind_of (bytes_of path.now)) host.old host.new }
    ensures same_meaning { H.FileTree.meaning host.new ≡ H.FileTree.meaning host.old }
    ensures still_sound { H.FileTree.sound host.new }
{
    let path = put(work, unit + 3, path.as_bytes());
    if settings.resolve_to_context() {
        let answer = match host.kind(path.of(work)) {
            Kind::Directory => Ok(Some(path)),
            Kind::Nothing | Kind::File => Err(Fault::NotFound(asked.text)),
        };
        return Move::Return(answer);
    }
    let walk = Walk::new(asks_for_directory(asked.text.of(work)));
    Move::Stay(OpenCall {
        asked,
        stage: Stage::Candidates(path, context.fully_specified, walk),
    })
}

// What package or hash lookup of the host finds for a request.
fn look_up<H: Host>(
    host: &mut H,
    work: &mut [u8],
    unit: usize,
    asked: Asked,
    context: ResolveContext,
    way: Way,
) -> Answer
    requires sound { H.FileTree.sound host.old }
    requires its_unit { unit ≡ first_unit asked.round }
    requires room { 256 * unit + 1536 ≤ length work.old }
    requires labelled { Labelled context asked }
    ensures answered_by_the_host { (labels : List Alias) → ended work.new labels result context ≡ answered_by (text_at work.old asked.text) ((H.FileTree.meaning host.old).lookup way (text_at work.old asked.text) (parts (text_at work.old asked.directory))) (context_of work.old context) }
    ensures ends_in_a_short_text { Short result }
    ensures only_its_unit_is_written { OnlyIn (unit + 3) work.old work.new }
    ensures asked_once { H.FileTree.steps host.old (lookup_of way (text_at work.old asked.text) (text_at work.old asked.directory)) host.new }
    ensures same_meaning { H.FileTree.meaning host.new ≡ H.FileTree.meaning host.old }
    ensures still_sound { H.FileTree.sound host.new }
{
    let mut found = [0; MAX_LEN];
    match host.lookup(
        way,
        asked.text.of(work),
        asked.directory.of(work),
        &mut found,
    ) {
        Ok(Some(len)) => {
            let path = Place { start: 0, len }.of(&found);
            Ok(Some(put(work, unit + 3, path)))
        }
        Ok(None) => Err(Fault::NotFound(asked.text)),
        Err(Broken) => Err(Fault::BrokenLookup(asked.text)),
    }
}

// A request that no label rewrites goes its way.
pub(crate) fn go_way<H: Host>(
    host: &mut H,
    settings: &Settings,
    work: &mut [u8],
    asked: Asked,
    context: ResolveContext,
) -> Move
    requires sound { H.FileTree.sound host.old }
    requires room { 256 * first_unit asked.round + 1536 ≤ length work.old }
    requires few { asked.round ≤ 65536 }
    requires labelled { Labelled context asked }
    ensures goes_its_way { (allowed : Allowed) (limit : ℕ) → by_way (H.FileTree.meaning host.old) allowed (tables settings.now) (again (H.FileTree.meaning host.old) allowed (tables settings.now) limit) (branch (text_at work.old asked.text)) (text_at work.old asked.directory) (text_at work.old asked.text) (context_of work.old context) ≡ plugged (H.FileTree.meaning host.old) allowed (tables settings.now) limit (map (shown (H.FileTree.meaning host.old) (tables settings.now) work.new) (rows_of result)) (came_back work.new (tables settings.now).aliases result context) }
    ensures fewer_moves { weights (tables settings.now) (map (shown (H.FileTree.meaning host.old) (tables settings.now) work.new) (rows_of result)) < label_moves (tables settings.now) 0 }
    ensures well_kept { (p : Progress) → Kept context.rounds (labels_row asked p) result }
    ensures ends_in_a_short_text { EndsShort result }
    ensures only_its_unit_is_written { OnlyIn (first_unit asked.round + 3) work.old work.new }
    ensures same_meaning { H.FileTree.meaning host.new ≡ H.FileTree.meaning host.old }
    ensures still_sound { H.FileTree.sound host.new }
{
    let unit = first_unit(asked.round);
    let request = asked.text.of(work);
    match Branch::of(request) {
        Branch::Absolute => {
            let path = Text::new(trim_final_slashes(request)).unwrap();
            look(host, settings, work, unit, asked, context, &path)
        }
        Branch::Relative => match joined(asked.directory.of(work), request) {
            Some(path) => look(host, settings, work, unit, asked, context, &path),
            None => Move::Return(Err(Fault::TooLong)),
        },
        Branch::Hash => Move::Return(look_up(host, work, unit, asked, context, Way::Hash)),
        Branch::Package => Move::Return(look_up(host, work, unit, asked, context, Way::Package)),
    }
}
