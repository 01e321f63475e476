// What a value of a label makes of a request that the label touches.
// Each call that asks the tree keeps its meaning and its soundness in its own contract, by a rule of the project.
ghost use Rattle.std.specs.Prelude.{◌≡◌, ◌≤◌, length, not};
ghost use Rattle.texts.specs.Held.{bytes_of};
ghost use Rattle.texts.specs.Texts.{buffer_with, empty};
ghost use Rattle.paths.specs.Joins.{normalize as normalize_of};
ghost use Rattle.tree.specs.Meanings.{kind_of};
ghost use Rattle.alias.specs.Answers.{AskedIf, asks, form_asks, held_request, new_request, request_text, text_made, told};
ghost use Rattle.alias.specs.Labels.{formed};
ghost use Rattle.alias.specs.Laws.{LiesBelowItsValue};
ghost use Rattle.alias.specs.Rewrites.{by_suffix, continued, form_rewrites, returns_to, rewritten, starred, tailed_normal, trimmed};
ghost use Rattle.alias.specs.Forms.{behind};

use crate::label::{AliasMatchKind, split_star};
use paths::{normalize_with, normalized};
use settings::MAX_VALUE;
use stack::Full;
use texts::{MAX_LEN, Place, Text, copy_text};
use tree::{FileTree, Kind};

// Stands for the Rust's `Cow`, by a rule of the project: a part of one of two slices is handed out.
/// A new request: the value as it was written, or a text that was made, as so many bytes at the front of the work text.
#[derive(Clone, Copy, PartialEq, Eq, Debug)]
pub enum NewRequest {
    Value,
    Made(usize),
}

/// The new request would pass 255 bytes, or the work text.
#[derive(Clone, Copy, PartialEq, Eq, Debug)]
pub struct TooLong;

impl From<Full> for TooLong {
    fn from(_full: Full) -> TooLong {
        TooLong
    }
}

// The caller lends the work text, by a rule of the project; so in all below that write a text to it.
// A new request, none where a value is passed over; a text that is made stands at the front of the work text, and where there is none that stays as it was.
type Rewritten = Result<Option<NewRequest>, TooLong>;

impl NewRequest {
    /// The request, handed out of the settings or of the work text, whichever holds it.
    pub fn text<'a>(self, value: &'a [u8], work: &'a [u8]) -> &'a [u8]
        ensures value_or_made_text { result.now ≡ request_text self value.now work.now }
    {
        match self {
            NewRequest::Value => value,
            NewRequest::Made(len) => Place { start: 0, len }.of(work),
        }
    }
}

// Whether a request is the value already, or continues it with a slash.
fn returns_to(value: &[u8], request: &[u8]) -> bool
    ensures value_or_what_continues_it { result ≡ returns_to value.now request.now }
{
    matches!(request.strip_prefix(value), Some([] | [b'/', ..]))
}

// A tail without its leading slashes and backslashes.
fn trim_start(tail: &[u8]) -> &[u8]
    ensures no_leading_slash { result.now ≡ trimmed tail.now }
{
    let mut kept = tail;
    while let [b'/' | b'\\', behind @ ..] = kept {
        kept = behind;
    }
    kept
}

// The value with its first `*` replaced by the middle of a request; without a `*`, the value as written.
fn replace_star(value: &[u8], middle: &[u8], work: &mut [u8]) -> Rewritten
    ensures first_star_replaced { result ≡ told (starred value.now middle.now) (length work.old) }
    ensures made_text_in_front { work.new ≡ buffer_with (text_made (starred value.now middle.now)) work.old }
{
    let Some((before, behind)) = split_star(value) else {
        return Ok(Some(NewRequest::Value));
    };
    let mut text = Text::<MAX_LEN>::empty();
    text.push_text(before)?;
    text.push_text(middle)?;
    text.push_text(behind)?;
    let len = copy_text(text.as_bytes(), work).ok_or(TooLong)?;
    Ok(Some(NewRequest::Made(len)))
}

// What a value of a wildcard makes of a request: prefix and then suffix are taken off.
fn rewrite_wildcard(
    prefix: &[u8],
    suffix: &[u8],
    value: &[u8],
    request: &[u8],
    work: &mut [u8],
) -> Rewritten
    ensures rewritten_by_its_middle { result ≡ told (by_suffix value.now suffix.now (behind prefix.now request.now)) (length work.old) }
    ensures made_text_in_front { work.new ≡ buffer_with (text_made (by_suffix value.now suffix.now (behind prefix.now request.now))) work.old }
{
    let Some(rest) = request.strip_prefix(prefix) else {
        return Ok(None);
    };
    match rest.strip_suffix(suffix) {
        Some(middle) => replace_star(value, middle, work),
        None => Ok(None),
    }
}

// The tail of a request joined to a normalized value; without a tail, the value as written.
fn join_tail(normal: &[u8], tail: &[u8], work: &mut [u8]) -> Rewritten
    ensures joined_behind_the_value { result ≡ told (tailed_normal normal.now tail.now) (length work.old) }
    ensures made_text_in_front { work.new ≡ buffer_with (text_made (tailed_normal normal.now tail.now)) work.old }
{
    if tail.is_empty() {
        return Ok(Some(NewRequest::Value));
    }
    let len = normalize_with(normal, tail, work).ok_or(TooLong)?;
    Ok(Some(NewRequest::Made(len)))
}

// A value normalized; it is short enough.
fn normal(value: &Text<MAX_VALUE>) -> Text<MAX_LEN>
    ensures normal_value { bytes_of result ≡ normalize_of (bytes_of value.now) }
{
    normalized(value.as_bytes()).unwrap()
}

// What a value makes of a request with this tail behind a plain label.
fn rewrite_plain<T: FileTree>(
    tree: &mut T,
    value: &Text<MAX_VALUE>,
    tail: &[u8],
    work: &mut [u8],
) -> Rewritten
    requires sound { T.FileTree.sound tree.old }
    ensures rewritten_by_its_tail { result ≡ told (continued (T.FileTree.meaning tree.old) (bytes_of value.now) tail.now) (length work.old) }
    ensures made_text_in_front { work.new ≡ buffer_with (text_made (continued (T.FileTree.meaning tree.old) (bytes_of value.now) tail.now)) work.old }
    ensures same_meaning { T.FileTree.meaning tree.new ≡ T.FileTree.meaning tree.old }
    ensures still_sound { T.FileTree.sound tree.new }
    ensures asked_once_if_there_is_a_tail { AskedIf T.FileTree.steps (not (empty tail.now)) (kind_of (normalize_of (bytes_of value.now))) tree.old tree.new }
{
    if tail.is_empty() {
        return Ok(Some(NewRequest::Value));
    }
    let normal = normal(value);
    match tree.kind(normal.as_bytes()) {
        Kind::File => Ok(None),
        Kind::Nothing | Kind::Directory => join_tail(normal.as_bytes(), trim_start(tail), work),
    }
}

// What a value makes of a request, by the form of its label.
fn rewrite_by_form<T: FileTree>(
    tree: &mut T,
    kind: AliasMatchKind,
    value: &Text<MAX_VALUE>,
    request: &[u8],
    work: &mut [u8],
) -> Rewritten
    requires sound { T.FileTree.sound tree.old }
    ensures rewritten_by_the_form { result ≡ told (form_rewrites (T.FileTree.meaning tree.old) (formed kind.entry) (bytes_of value.now) request.now) (length work.old) }
    ensures made_text_in_front { work.new ≡ buffer_with (text_made (form_rewrites (T.FileTree.meaning tree.old) (formed kind.entry) (bytes_of value.now) request.now)) work.old }
    ensures same_meaning { T.FileTree.meaning tree.new ≡ T.FileTree.meaning tree.old }
    ensures still_sound { T.FileTree.sound tree.new }
    ensures asked_once_if_a_plain_label_has_a_tail { AskedIf T.FileTree.steps (form_asks (formed kind.entry) request.now) (kind_of (normalize_of (bytes_of value.now))) tree.old tree.new }
{
    match kind {
        AliasMatchKind::Exact(_) => Ok(Some(NewRequest::Value)),
        AliasMatchKind::Wildcard { prefix, suffix } => {
            rewrite_wildcard(prefix, suffix, value.as_bytes(), request, work)
        }
        AliasMatchKind::Prefix(label) => match request.strip_prefix(label) {
            Some(tail) => rewrite_plain(tree, value, tail, work),
            None => Ok(None),
        },
    }
}

/// What a value of a label makes of a request that the label touches; none if the value is passed over. A text that is made is written to the front of `work`.
#[tactic(auto, using(crate::proofs::Rewriting::lies_below, crate::proofs::Rewriting::request_held), unfolding(crate::specs::Rewrites::rewritten))]
pub fn load_alias_value<T: FileTree>(
    tree: &mut T,
    label: &[u8],
    value: &Text<MAX_VALUE>,
    request: &[u8],
    work: &mut [u8],
) -> Result<Option<NewRequest>, TooLong>
    requires sound { T.FileTree.sound tree.old }
    ensures rewritten_by_definition { result ≡ told (rewritten (T.FileTree.meaning tree.old) label.now (bytes_of value.now) request.now) (length work.old) }
    ensures made_text_in_front { work.new ≡ buffer_with (text_made (rewritten (T.FileTree.meaning tree.old) label.now (bytes_of value.now) request.now)) work.old }
    ensures request_of_at_most_255_bytes { 255 ≤ length work.old → held_request result (bytes_of value.now) work.new ≡ new_request (bytes_of value.now) (rewritten (T.FileTree.meaning tree.old) label.now (bytes_of value.now) request.now) }
    ensures below_a_clean_value_unless_the_tail_climbs { LiesBelowItsValue (T.FileTree.meaning tree.old) label.now (bytes_of value.now) request.now }
    ensures same_meaning { T.FileTree.meaning tree.new ≡ T.FileTree.meaning tree.old }
    ensures still_sound { T.FileTree.sound tree.new }
    ensures asked_once_if_a_plain_label_has_a_tail { AskedIf T.FileTree.steps (asks label.now (bytes_of value.now) request.now) (kind_of (normalize_of (bytes_of value.now))) tree.old tree.new }
{
    if returns_to(value.as_bytes(), request) {
        return Ok(None);
    }
    rewrite_by_form(tree, AliasMatchKind::of(label), value, request, work)
}
