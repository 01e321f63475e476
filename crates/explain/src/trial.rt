// What the labels make of a request, one trial after the other.
ghost use Rattle.std.specs.Prelude.{◌≡◌, ◌≤◌, IfOk, length, map};
ghost use Rattle.texts.specs.Held.{bytes_of};
ghost use Rattle.texts.specs.Texts.{Text as Bytes};
ghost use Rattle.settings.specs.Rows.{alias_of};
ghost use Rattle.alias.specs.Attempts.{attempts};
ghost use Rattle.alias.specs.Left.{said};
ghost use Rattle.explain.specs.Trials.{any_tried, deciding, tried};

use crate::question::Question;
use alias::{Attempt, Progress, TooLong};
use settings::AliasRow;
use std::alloc::{AllocError, Global};
use texts::{MAX_LEN, Place, Text};
use tree::FileTree;

/// What comes of a label.
#[derive(Clone, Copy)]
pub enum Outcome {
    Again(Text<MAX_LEN>),
    Ignored(Text<MAX_LEN>),
    Unmatched,
}

/// What comes of a label, or that a text would pass 255 bytes, with the label's place in the table.
#[derive(Clone, Copy)]
pub struct Trial {
    pub label: usize,
    pub outcome: Result<Outcome, TooLong>,
}

/// A text by value.
pub(crate) fn held(text: &[u8]) -> Text<MAX_LEN>
    requires at_most_255_bytes { length text.now ≤ 255 }
    ensures same_bytes { bytes_of result ≡ text.now }
{
    Text::new(text).unwrap()
}

impl Trial {
    // An attempt with its texts, the made one from the front of the work text.
    fn of(
        progress: &Progress,
        aliases: &[AliasRow],
        attempt: Result<Attempt, TooLong>,
        work: &[u8; MAX_LEN],
    ) -> Trial
        ensures says_the_same { (request : Bytes) → tried (map alias_of aliases.now) request result ≡ said (map alias_of aliases.now) progress.now request work.now attempt }
    {
        let outcome = attempt.map(|attempt| match attempt {
            Attempt::Again(new) => Outcome::Again(held(new.text(progress.value(aliases), work))),
            Attempt::Ignored(len) => Outcome::Ignored(held(Place { start: 0, len }.of(work))),
            Attempt::Unmatched => Outcome::Unmatched,
        });
        Trial {
            label: progress.place(),
            outcome,
        }
    }
}

// The work text is lent to the labels, by a rule of the project.
/// All that the labels make of a request from a directory, in the order in which it is tried.
pub fn trials<T: FileTree>(
    alloc: Global,
    tree: &mut T,
    aliases: &[AliasRow],
    question: Question,
) -> Result<Vec<Trial>, AllocError>
    requires sound { T.FileTree.sound tree.old }
    ensures every_attempt_in_its_order { IfOk result (λ v. map (tried (map alias_of aliases.now) question.entry.request.now) v.items ≡ attempts (T.FileTree.meaning tree.old) question.entry.directory.now question.entry.request.now (map alias_of aliases.now)) }
    ensures same_meaning { T.FileTree.meaning tree.new ≡ T.FileTree.meaning tree.old }
    ensures still_sound { T.FileTree.sound tree.new }
{
    let mut work = [0; MAX_LEN];
    let mut progress = Progress::new();
    let mut found = Vec::new(alloc);
    while let Some(attempt) = progress.next(
        tree,
        aliases,
        question.directory,
        question.request,
        &mut work,
    ) {
        found.push(Trial::of(&progress, aliases, attempt, &work))?;
    }
    Ok(found)
}

// The work text is lent to the labels, by a rule of the project.
// Whether something is tried of one of these labels.
fn makes_an_attempt<T: FileTree>(tree: &mut T, aliases: &[AliasRow], question: Question) -> bool
    requires sound { T.FileTree.sound tree.old }
    ensures attempts_by_definition { result ≡ any_tried (attempts (T.FileTree.meaning tree.old) question.entry.directory.now question.entry.request.now (map alias_of aliases.now)) }
    ensures same_meaning { T.FileTree.meaning tree.new ≡ T.FileTree.meaning tree.old }
    ensures still_sound { T.FileTree.sound tree.new }
{
    let mut work = [0; MAX_LEN];
    let mut progress = Progress::new();
    let attempt = progress.next(
        tree,
        aliases,
        question.directory,
        question.request,
        &mut work,
    );
    attempt.is_some()
}

// Labels are gone through by their index, by a rule of the project.
/// The place of the first label of which something is tried for a request from a directory.
pub fn deciding<T: FileTree>(
    tree: &mut T,
    aliases: &[AliasRow],
    question: Question,
) -> Option<usize>
    requires sound { T.FileTree.sound tree.old }
    ensures first_label_that_tries { result ≡ deciding (T.FileTree.meaning tree.old) question.entry.directory.now question.entry.request.now (map alias_of aliases.now) }
    ensures same_meaning { T.FileTree.meaning tree.new ≡ T.FileTree.meaning tree.old }
    ensures still_sound { T.FileTree.sound tree.new }
{
    for i in 0..aliases.len() {
        if makes_an_attempt(tree, &aliases[i..=i], question) {
            return Some(i);
        }
    }
    None
}
