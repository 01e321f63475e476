// What a host says of a request that was read.
ghost use Rattle.std.specs.Prelude.{◌≡◌};
ghost use Rattle.std.specs.Option.{option_map};
ghost use Rattle.texts.specs.Held.{bytes_of};
ghost use Rattle.texts.specs.Parts.{parts};
ghost use Rattle.explain.specs.Answers.{answer_of, found_by, heard};

use crate::reading::Reading;
use specifier::Branch;
use texts::{MAX_LEN, Text};
use tree::{Broken, FileTree, Host, Kind, Way};

// Five cases, and not an option in a result: a request may also have no path to ask for.
/// The kind of the path that is looked for, or where the lookup leads.
#[derive(Clone, Copy)]
pub enum Answer {
    Kind(Kind),
    NoPath,
    Found(Text<MAX_LEN>),
    Missing,
    Broken,
}

// Where a request leads from a directory. The host writes to memory that is lent, by a rule of the project.
fn look_up<H: Host>(host: &mut H, way: Way, request: &[u8], directory: &[u8]) -> Answer
    requires sound { H.FileTree.sound host.old }
    ensures answer_by_the_meaning { heard result ≡ found_by ((H.FileTree.meaning host.old).lookup way request.now (parts directory.now)) }
    ensures same_meaning { H.FileTree.meaning host.new ≡ H.FileTree.meaning host.old }
    ensures still_sound { H.FileTree.sound host.new }
{
    let mut bytes = [0; MAX_LEN];
    match host.lookup(way, request, directory, &mut bytes) {
        Ok(Some(len)) => match Text::new(&bytes[0..len]) {
            Some(path) => Answer::Found(path),
            None => Answer::Missing,
        },
        Ok(None) => Answer::Missing,
        Err(Broken) => Answer::Broken,
    }
}

/// Asks the host for the kind of the path that a reading looks for, or looks its package or hash up from the directory.
pub fn ask<H: Host>(host: &mut H, directory: &[u8], reading: &Reading) -> Answer
    requires sound { H.FileTree.sound host.old }
    ensures answer_by_the_meaning { heard result ≡ answer_of (H.FileTree.meaning host.old) directory.now reading.now.branch (bytes_of reading.now.path) (option_map bytes_of reading.now.sought) }
    ensures same_meaning { H.FileTree.meaning host.new ≡ H.FileTree.meaning host.old }
    ensures still_sound { H.FileTree.sound host.new }
{
    match reading.branch {
        Branch::Package => look_up(host, Way::Package, reading.path.as_bytes(), directory),
        Branch::Hash => look_up(host, Way::Hash, reading.path.as_bytes(), directory),
        _ => match &reading.sought {
            Some(path) => Answer::Kind(host.kind(path.as_bytes())),
            None => Answer::NoPath,
        },
    }
}
