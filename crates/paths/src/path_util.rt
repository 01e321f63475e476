// Joining one text to another, and normalizing.
ghost use Rattle.std.specs.Prelude.{◌≡◌, ◌<◌, ◌≤◌, true, [], ◌++◌, length, if◌then◌else◌, Some, None, MatchResult};
ghost use Rattle.std.specs.Option.{option_map};
ghost use Rattle.std.specs.Result.{result_ok};
ghost use Rattle.stack.specs.Items.{items};
ghost use Rattle.texts.specs.Held.{bytes_of};
ghost use Rattle.texts.specs.Texts.{SLASH, begins, fits, length_in, buffer_with};
ghost use Rattle.texts.specs.Parts.{marks, places, texts_of};
ghost use Rattle.paths.specs.Laws.{CleanStaysClean, DirectoryStaysInFront, ShortTextsJoin};
ghost use Rattle.texts.specs.Walks.{left, subject};
ghost use Rattle.paths.specs.Joins.{component, cut_length, grown, joined as joined_of, normalize as normalize_of, normalized as normalized_of, relative, root_length, separator, slashed, walked_within};

use stack::{Full, Stack};
use texts::{Components, MAX_LEN, Place, Text, copy_text, ends_in, push_parts};

/// The most parts that a text of 255 bytes can have.
pub const MAX_PARTS: usize = 128;

// What a part does to the text that it is joined to.
#[derive(Clone, Copy)]
enum Component {
    CurDir,
    ParentDir,
    Normal,
}

impl Component {
    fn of(part: &[u8]) -> Component
        ensures component_by_its_dots { result ≡ component part.now }
    {
        match part {
            [b'.'] => Component::CurDir,
            [b'.', b'.'] => Component::ParentDir,
            _ => Component::Normal,
        }
    }
}

// What stays of a text of at most one part when that is cut off: all if it is the root.
fn root_len(text: &[u8]) -> usize
    ensures all_of_the_root_or_nothing { result ≡ root_length text.now }
{
    match text {
        [b'/', ..] => text.len(),
        _ => 0,
    }
}

// Where the text is cut off whose parts are on the stack.
fn kept_len(text: &[u8], parts: &mut Stack<Place>) -> usize
    requires parts_of_the_text { items parts.old ≡ places text.now }
    ensures length_after_the_cut { result ≡ cut_length text.now (marks text.now) }
    ensures within_the_text { result ≤ length text.now }
{
    let _ = parts.pop();
    match parts.top() {
        Some(place) => place.start + place.len,
        None => root_len(text),
    }
}

// How much of `text` stays when `..` cuts it.
fn parent_len(text: &[u8]) -> usize
    requires short { length text.now ≤ 255 }
    ensures length_after_the_cut { result ≡ cut_length text.now (marks text.now) }
    ensures within_the_text { result ≤ length text.now }
{
    let mut slots = [Place { start: 0, len: 0 }; MAX_PARTS];
    let mut parts = Stack::new(&mut slots);
    let _ = push_parts(text, &mut parts);
    kept_len(text, &mut parts)
}

fn begins_with_slash(text: &[u8]) -> bool
    ensures slash_in_front { result ≡ begins SLASH text.now }
{
    matches!(text, [b'/', ..])
}

// What stands between `text` and a name behind it.
fn separator_for(text: &[u8]) -> &'static [u8]
    ensures slash_where_one_is_wanted { result.now ≡ separator text.now }
{
    if text.is_empty() || ends_in(text, b'/') {
        b""
    } else {
        b"/"
    }
}

// Adds `name` to `text`, if there is room.
fn push_name(text: &mut Text<MAX_LEN>, name: &[u8]) -> Result<(), Full>
    ensures added_or_too_long { MatchResult result (λ _. bytes_of text.new ≡ slashed (bytes_of text.old) ++ name.now) (λ _. 255 < length (slashed (bytes_of text.old) ++ name.now)) }
{
    text.push_text(separator_for(text.as_bytes()))?;
    text.push_text(name)
}

// Joins one part to `text`, if there is room.
fn push_component(text: &mut Text<MAX_LEN>, part: &[u8]) -> Result<(), Full>
    ensures joined_or_too_long { MatchResult result (λ _. bytes_of text.new ≡ grown (bytes_of text.old) part.now) (λ _. 255 < length (grown (bytes_of text.old) part.now)) }
{
    match Component::of(part) {
        Component::CurDir => Ok(()),
        Component::ParentDir => {
            text.truncate(parent_len(text.as_bytes()));
            Ok(())
        }
        Component::Normal => push_name(text, part),
    }
}

// Joins the parts of `source` that are left to `text` one by one, if there is room for each text on the way.
fn push_components(text: &mut Text<MAX_LEN>, source: &[u8], rest: Components) -> Result<(), Full>
    requires of_the_source { subject rest ≡ source.now }
    ensures parts_joined_one_by_one { option_map (λ _. bytes_of text.new) (result_ok result) ≡ walked_within (bytes_of text.old) (texts_of (left rest.entry)) }
{
    for place in rest {
        push_component(text, place.of(source))?;
    }
    Ok(())
}

// Whether a text is added to what it is joined to, and does not take its place.
fn is_relative(text: &[u8]) -> bool
    ensures neither_empty_nor_rooted { result ≡ relative text.now }
{
    !text.is_empty() && !begins_with_slash(text)
}

// Lent and filled, not given back: a text of this size would be copied at each step on its way up.
// `more`, a relative text, joined to `base`, in a text without a byte.
fn join_into(base: &[u8], more: &[u8], text: &mut Text<MAX_LEN>) -> Result<(), Full>
    requires no_bytes { bytes_of text.old ≡ [] }
    requires relative { relative more.now ≡ true }
    ensures joined_text { option_map (λ _. bytes_of text.new) (result_ok result) ≡ joined_of base.now more.now }
{
    text.push_text(base)?;
    push_components(text, more, Components::new(more))
}

/// `more` joined to `base`. None where a text on the way has more than 255 bytes.
pub fn joined(base: &[u8], more: &[u8]) -> Option<Text<MAX_LEN>>
    ensures joined_text { option_map bytes_of result ≡ joined_of base.now more.now }
{
    if !is_relative(more) {
        return Text::new(more);
    }
    let mut text = Text::empty();
    join_into(base, more, &mut text).ok()?;
    Some(text)
}

// Copies a text of at most 255 bytes to the front of `out`; one that is longer or does not fit is refused, and `out` stays as it was.
fn copy_short(text: &[u8], out: &mut [u8]) -> Option<usize>
    ensures length_if_it_fits { result ≡ length_in (if fits text.now then Some text.now else None) (length out.old) }
    ensures text_in_front_if_it_fits { out.new ≡ buffer_with (if fits text.now then Some text.now else None) out.old }
{
    if text.len() <= MAX_LEN {
        copy_text(text, out)
    } else {
        None
    }
}

// The caller lends the buffer, by a rule of the project, so its length comes back beside it; so in `normalize`.
/// Joins `more` to `base`, at the front of `out`. None where a text on the way has more than 255 bytes or the joined text does not fit `out`; then `out` stays as it was.
pub fn normalize_with(base: &[u8], more: &[u8], out: &mut [u8]) -> Option<usize>
    ensures length_of_the_joined_text { result ≡ length_in (joined_of base.now more.now) (length out.old) }
    ensures joined_text_in_front { out.new ≡ buffer_with (joined_of base.now more.now) out.old }
    ensures clean_stays_clean { CleanStaysClean base.now more.now }
    ensures directory_stays_in_front { DirectoryStaysInFront base.now more.now }
    ensures short_texts_always_join { ShortTextsJoin base.now more.now }
{
    if !is_relative(more) {
        return copy_short(more, out);
    }
    let mut work = Text::empty();
    join_into(base, more, &mut work).ok()?;
    copy_text(work.as_bytes(), out)
}

// `text` normalized, in a text without a byte.
fn normalize_into(text: &[u8], normal: &mut Text<MAX_LEN>) -> Result<(), Full>
    requires no_bytes { bytes_of normal.old ≡ [] }
    ensures normal_text { option_map (λ _. bytes_of normal.new) (result_ok result) ≡ normalized_of text.now }
{
    if text.len() > MAX_LEN {
        return Err(Full);
    }
    let mut parts = Components::new(text);
    if begins_with_slash(text) {
        let _ = parts.next();
        normal.push_text(b"/")?;
        push_components(normal, text, parts)
    } else {
        push_components(normal, text, parts)
    }
}

/// `text` normalized. None where it has more than 255 bytes.
pub fn normalized(text: &[u8]) -> Option<Text<MAX_LEN>>
    ensures normal_text { option_map bytes_of result ≡ normalized_of text.now }
{
    let mut normal = Text::empty();
    normalize_into(text, &mut normal).ok()?;
    Some(normal)
}

/// `text` normalized, at the front of `out`. None where `text` has more than 255 bytes or does not fit `out`; then `out` stays as it was.
#[tactic(auto, using(crate::proofs::JoinLaws::normalize_short, crate::proofs::JoinLaws::normalize_twice))]
pub fn normalize(text: &[u8], out: &mut [u8]) -> Option<usize>
    ensures length_of_the_normal_text { result ≡ length_in (normalized_of text.now) (length out.old) }
    ensures normal_text_in_front { out.new ≡ buffer_with (normalized_of text.now) out.old }
    ensures twice_is_once { normalize_of (normalize_of text.now) ≡ normalize_of text.now }
    ensures never_longer { length (normalize_of text.now) ≤ length text.now }
{
    let mut work = Text::empty();
    normalize_into(text, &mut work).ok()?;
    copy_text(work.as_bytes(), out)
}
