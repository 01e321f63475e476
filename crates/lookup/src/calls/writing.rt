// What a lookup ends in, written to the buffers of the call.
ghost use Rattle.std.specs.Prelude.{◌≡◌, ◌≤◌, IfSome, Some, drop, length};
ghost use Rattle.std.specs.Option.{option_map};
ghost use Rattle.texts.specs.Parts.{text_at};
ghost use Rattle.settings.specs.Meant.{tables};
ghost use Rattle.alias.specs.Forms.{key as key_of};
ghost use Rattle.alias.specs.Left.{label_of};
ghost use Rattle.lookup.specs.Faults.{texts};
ghost use Rattle.lookup.specs.Opened.{ShortFault, fault_of};
ghost use Rattle.lookup.specs.Outcomes.{written};
ghost use Rattle.lookup.specs.Resolutions.{error_of, length_of};

use crate::calls::Fault;
use crate::resolution::{Refused, ResolveError};
use alias::key;
use settings::Settings;
use texts::{Place, copy_text};

// Writes a text to the front of a buffer, and says how long it is.
pub(crate) fn write(text: &[u8], buffer: &mut [u8]) -> usize
    requires short { length text.now ≤ 255 }
    requires room { 255 ≤ length buffer.old }
    ensures length_of_the_text { result ≡ length text.now }
    ensures bytes_beyond_stay { buffer.new ≡ written (Some text.now) buffer.old }
{
    copy_text(text, buffer).unwrap()
}

// Writes the text at a place to a buffer, if there is a place.
pub(crate) fn write_mark(area: &[u8], mark: Option<Place>, buffer: &mut [u8]) -> Option<usize>
    requires short { IfSome mark (λ p. p.len ≤ 255) }
    requires room { 255 ≤ length buffer.old }
    ensures length_of_the_text { result ≡ length_of (option_map (text_at area.now) mark) }
    ensures bytes_beyond_stay { buffer.new ≡ written (option_map (text_at area.now) mark) buffer.old }
{
    match mark {
        Some(place) => Some(write(place.of(area), buffer)),
        None => None,
    }
}

// The key of a label by its place in the table; empty where there is none.
fn key_at(settings: &Settings, label: usize) -> &[u8]
    ensures key_of_the_label { result.now ≡ key_of (label_of (drop label (tables settings.now).aliases)) }
    ensures short { length result.now ≤ 255 }
{
    match settings.aliases().get(label) {
        Some(row) => key(row.label()),
        None => b"",
    }
}

// Writes the texts of a fault to the first two buffers.
pub(crate) fn write_fault(
    area: &[u8],
    settings: &Settings,
    fault: Fault,
    first: &mut [u8],
    second: &mut [u8],
) -> Refused
    requires short { ShortFault fault }
    requires first_room { 255 ≤ length first.old }
    requires second_room { 255 ≤ length second.old }
    ensures error_of_the_fault { result.error ≡ error_of (fault_of area.now (tables settings.now).aliases fault) }
    ensures lengths_of_its_texts { (result.first ≡ length_of (texts (fault_of area.now (tables settings.now).aliases fault)).0) × (result.second ≡ length_of (texts (fault_of area.now (tables settings.now).aliases fault)).1) }
    ensures first_text_beyond_it_stays { first.new ≡ written (texts (fault_of area.now (tables settings.now).aliases fault)).0 first.old }
    ensures second_text_beyond_it_stays { second.new ≡ written (texts (fault_of area.now (tables settings.now).aliases fault)).1 second.old }
{
    let (error, text) = match fault {
        Fault::Empty(text) => (ResolveError::Empty, Some(text)),
        Fault::NotFound(text) => (ResolveError::NotFound, Some(text)),
        Fault::Unmatched(text, _) => (ResolveError::MatchedAliasNotFound, Some(text)),
        Fault::Ignored(text) => (ResolveError::Ignored, Some(text)),
        Fault::Recursion => (ResolveError::Recursion, None),
        Fault::TooLong => (ResolveError::TooLong, None),
        Fault::BrokenManifest(text) => (ResolveError::BrokenManifest, Some(text)),
        Fault::BrokenLookup(text) => (ResolveError::BrokenLookup, Some(text)),
    };
    let label = match fault {
        Fault::Unmatched(_, label) => Some(write(key_at(settings, label), second)),
        _ => None,
    };
    Refused {
        error,
        first: write_mark(area, text, first),
        second: label,
    }
}
