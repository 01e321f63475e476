// All candidates of a path that is looked for, one after the other.
ghost use Rattle.std.specs.Prelude.{◌≡◌, ◌<◌, ◌≤◌, ℕ, Bool, List, false, Err, None, Some, length, take};
ghost use Rattle.std.specs.Option.{option_map};
ghost use Rattle.texts.specs.Held.{bytes_of};
ghost use Rattle.texts.specs.Texts.{Text as Bytes, fronted};
ghost use Rattle.paths.specs.Joins.{joined as joined_of};
ghost use Rattle.tree.specs.Meanings.{Meaning};
ghost use Rattle.settings.specs.Meant.{tables};
ghost use Rattle.settings.specs.Tables.{Tables};
ghost use Rattle.candidates.specs.Answers.{said, written_length};
ghost use Rattle.candidates.specs.Asked.{AskedBetween, DirectoryAsked, ahead};
ghost use Rattle.candidates.specs.Candidates.{candidates, main_text};
ghost use Rattle.candidates.specs.Left.{Stepped, Taken, behind_main, behind_path, ended, left, rank, stage_left};
ghost use Rattle.candidates.specs.declared.forming.Fault.TheVariants.{TooLong};

use crate::forming::{Fault, Formed};
use crate::places::{Form, Sought};
use paths::joined;
use settings::Settings;
use texts::{MAX_LEN, Text};
use tree::{Broken, FileTree, Host, Kind, MAX_MAIN};

// The longest main text behind `./`, in bytes.
const MAX_JOINED: usize = MAX_MAIN + 2;

// Each stage has what it needs beside it, and one match says what each does.
// Where in the list the walk is: the path, whether it is a directory and its manifest, a main text, or the end.
#[derive(Clone, Copy, PartialEq, Eq, Debug)]
enum Stage {
    Path(Form),
    Directory,
    Main(u8, Form),
    Done,
}

/// How far the candidates of a path were gone through.
#[derive(Clone, Copy)]
pub struct Walk {
    stage: Stage,
    place: u8,
}

// A main text as it is joined: behind `./` if it is empty or absolute.
fn as_joined(main: &[u8]) -> Text<MAX_JOINED>
    requires short_main_text { length main.now ≤ 32 }
    ensures behind_a_dot_if_not_relative { bytes_of result ≡ main_text main.now }
{
    let mut text = Text::empty();
    match main {
        [] | [b'/', ..] => {
            let _ = text.push_text(b"./");
        }
        _ => {}
    }
    let _ = text.push_text(main);
    text
}

// A main text joined to a path.
fn join_main(path: &[u8], main: &[u8]) -> Option<Text<MAX_LEN>>
    requires short_main_text { length main.now ≤ 32 }
    ensures joined_to_the_path { option_map bytes_of result ≡ joined_of path.now (main_text main.now) }
{
    joined(path, as_joined(main).as_bytes())
}

impl Form {
    // The stage behind the candidates of a path.
    fn behind_path(self) -> Stage
        ensures directory_or_the_end { result ≡ behind_path self }
    {
        match self {
            Form::File => Stage::Directory,
            Form::Index => Stage::Done,
        }
    }

    // The stage behind the candidates of a main text.
    fn behind_main(self, main: u8) -> Stage
        requires few_main_texts { main < 255 }
        ensures main_files_or_the_next_main_text { result ≡ behind_main main self }
    {
        match self {
            Form::File => Stage::Main(main, Form::Index),
            Form::Index => Stage::Main(main + 1, Form::File),
        }
    }
}

// The first place of a stage.
fn begin(stage: Stage) -> Walk
    ensures first_place_of_the_stage { result ≡ record { stage = stage; place = 0 } }
{
    Walk { stage, place: 0 }
}

// Each step says of its own stage what is left then, and that it is nearer to the end. The last match stands in two of them: a function for both would take the candidate, both stages and the place.
// The path in one of the two forms: the candidate at a place, or the next stage.
fn step_path(sought: &Sought, form: Form, place: u8, out: &mut [u8]) -> (Option<Formed>, Walk)
    requires room_for_a_text { 255 ≤ length out.old }
    ensures next_or_moved { (m : Meaning) → Stepped (stage_left (tables sought.now.settings.now) sought.now.fully_specified sought.now.path.now m (Stage.Path form) place) (option_map (said sought.now.path.now out.new) result.0) (left (tables sought.now.settings.now) sought.now.fully_specified sought.now.path.now m result.1) }
    ensures nearer_to_the_end { result.0 ≡ None → rank result.1.stage < rank (Stage.Path form) }
    ensures same_side_of_the_directory { ahead result.1.stage ≡ ahead (Stage.Path form) }
    ensures only_its_text_is_written { out.new ≡ fronted (take (written_length result.0) out.new) out.old }
{
    match sought.candidate(form, place as usize, out) {
        Some(candidate) => {
            let stage = Stage::Path(form);
            let place = place + 1;
            (Some(candidate), Walk { stage, place })
        }
        None => (None, begin(form.behind_path())),
    }
}

// Whether the path is a directory, and its manifest; each is asked once.
fn step_directory<H: Host>(host: &mut H, path: &[u8]) -> (Option<Formed>, Walk)
    requires sound { H.FileTree.sound host.old }
    ensures next_or_moved { (t : Tables) (fully : Bool) (out : List ℕ) → Stepped (stage_left t fully path.now (H.FileTree.meaning host.old) Stage.Directory 0) (option_map (said path.now out) result.0) (left t fully path.now (H.FileTree.meaning host.old) result.1) }
    ensures nearer_to_the_end { result.0 ≡ None → rank result.1.stage < rank Stage.Directory }
    ensures past_the_directory { ahead result.1.stage ≡ false }
    ensures no_text { written_length result.0 ≡ 0 }
    ensures asked_once_for_kind_and_manifest { DirectoryAsked H.FileTree.steps (H.FileTree.meaning host.old) path.now host.old host.new }
    ensures same_meaning { H.FileTree.meaning host.new ≡ H.FileTree.meaning host.old }
    ensures still_sound { H.FileTree.sound host.new }
{
    match host.kind(path) {
        Kind::Nothing | Kind::File => (None, begin(Stage::Done)),
        Kind::Directory => match host.manifest(path) {
            Ok(None) => (None, begin(Stage::Path(Form::Index))),
            Ok(Some(_)) => (None, begin(Stage::Main(0, Form::File))),
            Err(Broken) => (Some(Err(Fault::BrokenManifest)), begin(Stage::Done)),
        },
    }
}

// A main text of the manifest in one of the two forms: the candidate at a place, or the next stage.
fn step_main<H: Host>(
    host: &H,
    sought: &Sought,
    main: u8,
    form: Form,
    place: u8,
    out: &mut [u8],
) -> (Option<Formed>, Walk)
    requires sound { H.FileTree.sound host.now }
    requires room_for_a_text { 255 ≤ length out.old }
    ensures next_or_moved { Stepped (stage_left (tables sought.now.settings.now) sought.now.fully_specified sought.now.path.now (H.FileTree.meaning host.now) (Stage.Main main form) place) (option_map (said sought.now.path.now out.new) result.0) (left (tables sought.now.settings.now) sought.now.fully_specified sought.now.path.now (H.FileTree.meaning host.now) result.1) }
    ensures nearer_to_the_end { result.0 ≡ None → rank result.1.stage < rank (Stage.Main main form) }
    ensures past_the_directory { ahead result.1.stage ≡ false }
    ensures only_its_text_is_written { out.new ≡ fronted (take (written_length result.0) out.new) out.old }
{
    let Some(text) = host.main_text(sought.path, main as usize) else {
        return (None, begin(Stage::Path(Form::Index)));
    };
    // behind a reference: by value the text would be copied once more
    let Some(joined) = &join_main(sought.path, text) else {
        return (Some(Err(Fault::TooLong)), begin(Stage::Done));
    };
    let below = Sought {
        settings: sought.settings,
        fully_specified: sought.fully_specified,
        path: joined.as_bytes(),
    };
    match below.candidate(form, place as usize, out) {
        Some(candidate) => {
            let stage = Stage::Main(main, form);
            let place = place + 1;
            (Some(candidate), Walk { stage, place })
        }
        None => (None, begin(form.behind_main(main))),
    }
}

impl Walk {
    /// Before any candidate; a request that asks for what is in a directory leaves out the path as a file.
    pub fn new(inside: bool) -> Walk
        ensures every_candidate_is_left { (t : Tables) (fully : Bool) (path : Bytes) (m : Meaning) → left t fully path m result ≡ candidates t fully m inside path }
    {
        if inside {
            begin(Stage::Directory)
        } else {
            begin(Stage::Path(Form::File))
        }
    }

    // One step: a candidate is formed, or the walk moves on to the next stage.
    fn step<H: Host>(self, host: &mut H, sought: &Sought, out: &mut [u8]) -> (Option<Formed>, Walk)
        requires sound { H.FileTree.sound host.old }
        requires room_for_a_text { 255 ≤ length out.old }
        ensures next_or_moved { Stepped (left (tables sought.now.settings.now) sought.now.fully_specified sought.now.path.now (H.FileTree.meaning host.old) self) (option_map (said sought.now.path.now out.new) result.0) (left (tables sought.now.settings.now) sought.now.fully_specified sought.now.path.now (H.FileTree.meaning host.old) result.1) }
        ensures nearer_to_the_end { result.0 ≡ None → ended self.stage ≡ false → rank result.1.stage < rank self.stage }
        ensures only_its_text_is_written { out.new ≡ fronted (take (written_length result.0) out.new) out.old }
        ensures asked_only_at_the_directory { AskedBetween H.FileTree.steps (H.FileTree.meaning host.old) sought.now.path.now self.stage result.1.stage host.old host.new }
        ensures same_meaning { H.FileTree.meaning host.new ≡ H.FileTree.meaning host.old }
        ensures still_sound { H.FileTree.sound host.new }
    {
        match self.stage {
            Stage::Path(form) => step_path(sought, form, self.place, out),
            Stage::Directory => step_directory(host, sought.path),
            Stage::Main(main, form) => step_main(host, sought, main, form, self.place, out),
            Stage::Done => (None, self),
        }
    }

    // The next candidate of a path; none is left at the end.
    fn advance<H: Host>(&mut self, host: &mut H, sought: &Sought, out: &mut [u8]) -> Option<Formed>
        requires sound { H.FileTree.sound host.old }
        requires room_for_a_text { 255 ≤ length out.old }
        ensures next_in_the_list { Taken (left (tables sought.now.settings.now) sought.now.fully_specified sought.now.path.now (H.FileTree.meaning host.old) self.old) (option_map (said sought.now.path.now out.new) result) (left (tables sought.now.settings.now) sought.now.fully_specified sought.now.path.now (H.FileTree.meaning host.old) self.new) }
        ensures only_its_text_is_written { out.new ≡ fronted (take (written_length result) out.new) out.old }
        ensures asked_only_at_the_directory { AskedBetween H.FileTree.steps (H.FileTree.meaning host.old) sought.now.path.now self.old.stage self.new.stage host.old host.new }
        ensures same_meaning { H.FileTree.meaning host.new ≡ H.FileTree.meaning host.old }
        ensures still_sound { H.FileTree.sound host.new }
    {
        while self.stage != Stage::Done {
            let (candidate, then) = self.step(host, sought, out);
            *self = then;
            if candidate.is_some() {
                return candidate;
            }
        }
        None
    }

    /// The next candidate of a path, by the length of its text, or why nothing more is tried; none is left at the end. The text is written to the front of `out`, which holds any text if it has 255 bytes.
    pub fn next<H: Host>(
        &mut self,
        host: &mut H,
        settings: &Settings,
        fully_specified: bool,
        path: &[u8],
        out: &mut [u8],
    ) -> Option<Result<usize, Fault>>
        requires sound { H.FileTree.sound host.old }
        ensures next_in_the_list { 255 ≤ length out.old → Taken (left (tables settings.now) fully_specified path.now (H.FileTree.meaning host.old) self.old) (option_map (said path.now out.new) result) (left (tables settings.now) fully_specified path.now (H.FileTree.meaning host.old) self.new) }
        ensures short_buffer_is_refused { length out.old < 255 → (result ≡ Some (Err TooLong)) × ((self.new ≡ self.old) × (host.new ≡ host.old)) }
        ensures only_its_text_is_written { out.new ≡ fronted (take (written_length result) out.new) out.old }
        ensures asked_only_at_the_directory { 255 ≤ length out.old → AskedBetween H.FileTree.steps (H.FileTree.meaning host.old) path.now self.old.stage self.new.stage host.old host.new }
        ensures same_meaning { H.FileTree.meaning host.new ≡ H.FileTree.meaning host.old }
        ensures still_sound { H.FileTree.sound host.new }
    {
        if out.len() < MAX_LEN {
            return Some(Err(Fault::TooLong));
        }
        let sought = Sought {
            settings,
            fully_specified,
            path,
        };
        self.advance(host, &sought, out)
    }
}
