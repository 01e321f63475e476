// What goes with a lookup from round to round, and the round that a text starts.
ghost use Rattle.std.specs.Prelude.{◌≡◌, ◌+◌, ◌≤◌, IfSome, false};
ghost use Rattle.lookup.specs.Marks.{counted_context, fresh_context, marked_context, shifted, taking_context};
ghost use Rattle.lookup.specs.Turns.{loosened, round_from, round_row, with_text};

use crate::calls::{Asked, OpenCall, ResolveContext, Stage};
use specifier::Specifier;
use texts::Place;

// A place that stands in a text, counted from the work text's first byte.
fn shifted(place: Option<Place>, start: usize) -> Option<Place>
    requires few { start ≤ 134217728 }
    requires short { IfSome place (λ p. p.start ≤ 255) }
    ensures shifted_by_the_start { result ≡ shifted start place }
{
    place.map(|place| Place {
        start: start + place.start,
        len: place.len,
    })
}

impl ResolveContext {
    // The context before any round.
    pub(crate) fn fresh(fully_specified: bool) -> ResolveContext
        ensures no_round_and_no_marks { result ≡ fresh_context fully_specified }
    {
        ResolveContext {
            rounds: 0,
            fully_specified,
            query: None,
            fragment: None,
        }
    }

    // The context with one more round.
    pub(crate) fn counted(self) -> ResolveContext
        requires few { self.rounds ≤ 65536 }
        ensures one_more_round { result ≡ counted_context self }
    {
        ResolveContext {
            rounds: self.rounds + 1,
            ..self
        }
    }

    // The context with the query and the fragment of a text that starts at a place, where it has them.
    pub(crate) fn taking(self, specifier: Specifier, start: usize) -> ResolveContext
        requires few { start ≤ 134217728 }
        requires short_query { IfSome specifier.query (λ p. p.start ≤ 255) }
        requires short_fragment { IfSome specifier.fragment (λ p. p.start ≤ 255) }
        ensures newer_ones_take_the_place { result ≡ taking_context self specifier start }
    {
        ResolveContext {
            query: shifted(specifier.query, start).or(self.query),
            fragment: shifted(specifier.fragment, start).or(self.fragment),
            ..self
        }
    }

    // The context with another fragment, or with none.
    pub(crate) fn with_fragment(self, fragment: Option<Place>) -> ResolveContext
        ensures fragment_alone_changes { result ≡ marked_context fragment self }
    {
        ResolveContext { fragment, ..self }
    }

    // The context with fully specified off, for good.
    pub(crate) fn loosened(self) -> ResolveContext
        ensures fully_specified_off { result ≡ loosened self }
    {
        ResolveContext {
            fully_specified: false,
            ..self
        }
    }
}

impl Asked {
    // The same with another text.
    pub(crate) fn with_text(self, text: Place) -> Asked
        ensures same_with_another_text { result ≡ with_text self text }
    {
        Asked { text, ..self }
    }

    // The round that a text starts from a candidate, whose path is the directory then.
    pub(crate) fn round_from(self, text: Place) -> OpenCall
        requires few { self.round ≤ 65536 }
        ensures round_from_the_candidate { result ≡ round_from self text }
    {
        let asked = Asked {
            directory: self.text,
            ..self
        };
        asked.round_of(text)
    }

    // The round that a text starts from the same directory.
    pub(crate) fn round_of(self, text: Place) -> OpenCall
        requires few { self.round ≤ 65536 }
        ensures round_from_the_same_directory { result ≡ round_row self text }
    {
        OpenCall {
            asked: Asked {
                round: self.round + 1,
                directory: self.directory,
                text,
            },
            stage: Stage::Require,
        }
    }
}
