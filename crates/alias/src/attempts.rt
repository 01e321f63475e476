// The labels tried on a request, one attempt after the other.
// Each call that asks the tree keeps its meaning and its soundness in its own contract, by a rule of the project.
ghost use Rattle.std.specs.Prelude.{◌≡◌, ◌<◌, ◌≤◌, ◌-◌, ◌+◌, Bool, true, false, List, [], ◌∷◌, IfSome, MatchOption, Some, map, drop, length, take};
ghost use Rattle.texts.specs.Texts.{Text as Bytes, fronted};
ghost use Rattle.std.specs.Option.{option_map};
ghost use Rattle.settings.specs.Rows.{alias_of, value_of};
ghost use Rattle.settings.specs.Tables.{Alias};
ghost use Rattle.tree.specs.Meanings.{Meaning};
ghost use Rattle.alias.specs.Asked.{LabelAsked, SomeAsked, SomeLabelsAsked, ValueAsked, ValuesAsked, behind_found};
ghost use Rattle.alias.specs.Attempts.{Attempt as Tried, attempts, ignoring, value_attempt};
ghost use Rattle.alias.specs.Left.{RowTaken, Taken, ValueFound, ends_search, first_value, gone_to, label_tried, left, row_left, row_said, said, said_by, value_text, value_tried, values_left, written_length};
ghost use Rattle.alias.specs.Laws.{UntouchingLabelChangesNothing};

use crate::label::{key, key_matches};
use crate::rewrite::{NewRequest, TooLong, load_alias_value};
use paths::normalize_with;
use settings::{AliasRow, AliasValue};
use texts::MAX_LEN;
use tree::FileTree;

/// What comes next for a request that a label touches.
#[derive(Clone, Copy, PartialEq, Eq, Debug)]
pub enum Attempt {
    /// A value gives another request.
    Again(NewRequest),
    /// The label ignores the request, and its path has so many bytes at the front of the work text.
    Ignored(usize),
    /// Values were tried, and none is left.
    Unmatched,
}

// The caller lends the work text, by a rule of the project; so in all below that write a text to it.
// An attempt, or that a text would pass 255 bytes; its text stands at the front of the work text, and nothing else is written there.
type Attempted = Result<Attempt, TooLong>;

// The end is a mark and no state of its own, since the label that was come to is asked for behind it too.
/// How far the labels were tried for a request: the label that was come to, which of its values comes next, and whether all is done.
#[derive(Clone, Copy)]
pub struct Progress {
    label: usize,
    value: usize,
    done: bool,
}

// Private, beside the pair that `explain` reads off a line: in public, each caller would make a struct of the two for one call.
// A request from a directory.
#[derive(Clone, Copy)]
struct Import<'a> {
    directory: &'a [u8],
    request: &'a [u8],
}

// Whether nothing is tried behind an attempt.
fn is_last(attempt: &Attempted) -> bool
    ensures all_but_another_request { result ≡ ends_search attempt.now }
{
    !matches!(attempt, Ok(Attempt::Again(_)))
}

impl<'a> Import<'a> {
    // The attempt of a label that ignores it.
    fn ignored(self, label: &[u8], work: &mut [u8]) -> Attempted
        requires room_for_a_text { 255 ≤ length work.old }
        ensures label_joined_to_the_directory { (v r : Bytes) → said_by v label.now r work.new result ≡ ignoring self.entry.directory.now label.now }
        ensures only_its_text_is_written { work.new ≡ fronted (take (written_length (Some result)) work.new) work.old }
    {
        let len = normalize_with(self.directory, key(label), work).ok_or(TooLong)?;
        Ok(Attempt::Ignored(len))
    }

    // The attempt of one value of a label that touches it; none if the value is passed over.
    fn try_value<T: FileTree>(
        self,
        tree: &mut T,
        label: &[u8],
        value: &AliasValue,
        work: &mut [u8],
    ) -> Option<Attempted>
        requires sound { T.FileTree.sound tree.old }
        requires room_for_a_text { 255 ≤ length work.old }
        ensures attempt_of_the_value { option_map (said_by (value_text (value_of value.now)) label.now self.entry.request.now work.new) result ≡ value_attempt (T.FileTree.meaning tree.old) self.entry.directory.now self.entry.request.now label.now (value_of value.now) }
        ensures only_its_text_is_written { work.new ≡ fronted (take (written_length result) work.new) work.old }
        ensures asked_once_if_a_plain_label_has_a_tail { ValueAsked T.FileTree.steps label.now self.entry.request.now (value_of value.now) tree.old tree.new }
        ensures same_meaning { T.FileTree.meaning tree.new ≡ T.FileTree.meaning tree.old }
        ensures still_sound { T.FileTree.sound tree.new }
    {
        match value {
            AliasValue::Ignore => Some(self.ignored(label, work)),
            AliasValue::Path(text) => {
                let new = load_alias_value(tree, label, text, self.request, work).transpose()?;
                Some(new.map(Attempt::Again))
            }
        }
    }

    // The first attempt among the values of a label from one of them on, with the place of its value.
    fn next_value<T: FileTree>(
        self,
        tree: &mut T,
        row: &AliasRow,
        from: usize,
        work: &mut [u8],
    ) -> Option<(usize, Attempted)>
        requires sound { T.FileTree.sound tree.old }
        requires room_for_a_text { 255 ≤ length work.old }
        ensures first_value_that_is_not_passed_over { (tried : Bool) (later : List Tried) → ValueFound (T.FileTree.meaning tree.old) self.entry.directory.now self.entry.request.now (alias_of row.now) (drop from (alias_of row.now).values) tried later work.new result }
        ensures place_among_four { IfSome result (λ x. x.0 < 4) }
        ensures only_its_text_is_written { work.new ≡ fronted (take (written_length (option_map (λ x. x.1) result)) work.new) work.old }
        ensures asked_value_by_value { ValuesAsked T.FileTree.steps (alias_of row.now).label self.entry.request.now (drop from (alias_of row.now).values) (behind_found (alias_of row.now).values result) tree.old tree.new }
        ensures same_meaning { T.FileTree.meaning tree.new ≡ T.FileTree.meaning tree.old }
        ensures still_sound { T.FileTree.sound tree.new }
    {
        let label = row.label();
        let values = row.values();
        // Labels and their values are gone through by their index, by a rule of the project.
        for i in from..values.len() {
            if let Some(attempt) = self.try_value(tree, label, &values[i], work) {
                return Some((i, attempt));
            }
        }
        None
    }
}

impl Progress {
    /// Before any label was tried.
    #[tactic(auto, using(crate::proofs::Attempting::left_first))]
    pub fn new() -> Progress
        ensures every_attempt_is_left { (m : Meaning) (dir r : Bytes) (aliases : List Alias) → left m dir r aliases result ≡ attempts m dir r aliases }
    {
        Progress {
            label: 0,
            value: 0,
            done: false,
        }
    }

    /// Which label was come to, counted from 0.
    pub fn place(&self) -> usize
        ensures place_of_the_label { result ≡ self.now.label }
    {
        self.label
    }

    // The row of the label that was come to, if there is one.
    fn row<'a>(&self, aliases: &'a [AliasRow]) -> Option<&'a AliasRow>
        ensures row_at_the_place { MatchOption result (drop self.now.label (map alias_of aliases.now) ≡ []) (λ row. drop self.now.label (map alias_of aliases.now) ≡ alias_of row.now ∷ drop (self.now.label + 1) (map alias_of aliases.now)) }
    {
        aliases.get(self.label)
    }

    /// The label that was come to.
    pub fn label<'a>(&self, aliases: &'a [AliasRow]) -> &'a [u8]
        ensures label_that_was_come_to { result.now ≡ label_tried (map alias_of aliases.now) self.now }
    {
        match self.row(aliases) {
            Some(row) => row.label(),
            None => b"",
        }
    }

    /// The text of the value that was tried last.
    pub fn value<'a>(&self, aliases: &'a [AliasRow]) -> &'a [u8]
        ensures value_that_was_tried_last { result.now ≡ value_tried (map alias_of aliases.now) self.now }
        ensures at_most_96_bytes { length result.now ≤ 96 }
    {
        match self.row(aliases) {
            Some(row) => value_at(row, self.value.saturating_sub(1)),
            None => b"",
        }
    }

    // Goes on to a label: stays where it is, or begins with the first value of a later one.
    fn go_to(&mut self, label: usize)
        ensures same_label_or_a_fresh_one { self.new ≡ gone_to label self.old }
    {
        if label != self.label {
            *self = Progress {
                label,
                value: 0,
                ..*self
            };
        }
    }

    // The next attempt of a label that touches.
    fn try_values<T: FileTree>(
        &mut self,
        tree: &mut T,
        row: &AliasRow,
        import: Import,
        work: &mut [u8],
    ) -> Option<Attempted>
        requires sound { T.FileTree.sound tree.old }
        requires room_for_a_text { 255 ≤ length work.old }
        requires not_done { self.old.done ≡ false }
        ensures same_label { self.new.label ≡ self.old.label }
        ensures next_of_its_values { (later : List Tried) → RowTaken (values_left (T.FileTree.meaning tree.old) import.entry.directory.now import.entry.request.now (alias_of row.now) self.old later) (option_map (row_said (alias_of row.now) self.new import.entry.request.now work.new) result) (values_left (T.FileTree.meaning tree.old) import.entry.directory.now import.entry.request.now (alias_of row.now) self.new later) self.new.done later }
        ensures only_its_text_is_written { work.new ≡ fronted (take (written_length result) work.new) work.old }
        ensures asked_value_by_value { SomeAsked T.FileTree.steps (alias_of row.now).label import.entry.request.now true (drop self.old.value (alias_of row.now).values) tree.old tree.new }
        ensures same_meaning { T.FileTree.meaning tree.new ≡ T.FileTree.meaning tree.old }
        ensures still_sound { T.FileTree.sound tree.new }
    {
        if let Some((i, attempt)) = import.next_value(tree, row, self.value, work) {
            self.value = i + 1;
            self.done = is_last(&attempt);
            return Some(attempt);
        }
        if self.value == 0 {
            return None;
        }
        self.done = true;
        Some(Ok(Attempt::Unmatched))
    }

    /// The next attempt for a request from a directory: none is left, another request, or an end. A text that is made is written to the front of `work`, which holds any text if it has 255 bytes.
    #[tactic(auto, using(crate::proofs::Attempting::untouched))]
    pub fn next<T: FileTree>(
        &mut self,
        tree: &mut T,
        aliases: &[AliasRow],
        directory: &[u8],
        request: &[u8],
        work: &mut [u8],
    ) -> Option<Result<Attempt, TooLong>>
        requires sound { T.FileTree.sound tree.old }
        ensures next_in_the_list { 255 ≤ length work.old → Taken (left (T.FileTree.meaning tree.old) directory.now request.now (map alias_of aliases.now) self.old) (option_map (said (map alias_of aliases.now) self.new request.now work.new) result) (left (T.FileTree.meaning tree.old) directory.now request.now (map alias_of aliases.now) self.new) }
        ensures short_work_text_is_refused { length work.old < 255 → (result ≡ Some (Err (record {}))) × ((self.new ≡ self.old) × (tree.new ≡ tree.old)) }
        ensures only_its_text_is_written { work.new ≡ fronted (take (written_length result) work.new) work.old }
        ensures untouching_label_changes_nothing { UntouchingLabelChangesNothing (T.FileTree.meaning tree.old) directory.now request.now }
        ensures asked_label_by_label { SomeLabelsAsked T.FileTree.steps request.now (drop self.old.label (map alias_of aliases.now)) self.old.value tree.old tree.new }
        ensures same_meaning { T.FileTree.meaning tree.new ≡ T.FileTree.meaning tree.old }
        ensures still_sound { T.FileTree.sound tree.new }
    {
        if work.len() < MAX_LEN {
            return Some(Err(TooLong));
        }
        if self.done {
            return None;
        }
        let import = Import { directory, request };
        // Labels and their values are gone through by their index, by a rule of the project.
        for i in self.label..aliases.len() {
            self.go_to(i);
            let row = &aliases[i];
            if !key_matches(row.label(), request) {
                continue;
            }
            if let Some(attempt) = self.try_values(tree, row, import, work) {
                return Some(attempt);
            }
        }
        self.done = true;
        None
    }
}

// The text of a value of a label, from the first one on; none has no bytes.
fn value_at(row: &AliasRow, i: usize) -> &[u8]
    ensures text_of_the_value { result.now ≡ first_value (drop i (alias_of row.now).values) }
    ensures at_most_96_bytes { length result.now ≤ 96 }
{
    match row.values().get(i) {
        Some(AliasValue::Path(text)) => text.as_bytes(),
        Some(AliasValue::Ignore) | None => b"",
    }
}
