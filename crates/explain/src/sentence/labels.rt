// The lines on the labels that touch a request, and on what they try.
ghost use Rattle.std.specs.Prelude.{◌≡◌, Some, map};
ghost use Rattle.std.specs.List.{flat_map, list_any};
ghost use Rattle.settings.specs.Rows.{alias_of};
ghost use Rattle.alias.specs.Forms.{touches};
ghost use Rattle.explain.specs.Labels.{labels_lines, outcome_words, outcomes_words, passed_over, touching_words, undecided_lines};

use crate::shown::Shown;
use crate::trial::{Outcome, Trial};
use alias::{TooLong, key_matches};
use settings::AliasRow;
use std::fmt;

// What comes of a label, as the first thing or behind others.
#[derive(Clone, Copy)]
struct OutcomeWords {
    first: bool,
    outcome: Result<Outcome, TooLong>,
}

impl fmt::Display for OutcomeWords {
    ghost output = { λ o. Some (outcome_words o.first o.outcome) };

    fn fmt<W: fmt::Write>(&self, f: &mut fmt::Formatter<W>) -> fmt::Result {
        match &self.outcome {
            Ok(Outcome::Again(text)) => {
                f.write_str(if self.first { ": tried is " } else { ", then " })?;
                write!(f, "{}", Shown(text.as_bytes()))
            }
            Ok(Outcome::Ignored(path)) => {
                f.write_str(if self.first {
                    ": ignored with 24 is "
                } else {
                    ", then ignored with 24 is "
                })?;
                write!(f, "{}", Shown(path.as_bytes()))
            }
            Ok(Outcome::Unmatched) => write!(f, ", and where none is found it is refused with 23"),
            Err(TooLong) => {
                f.write_str(if self.first { ": " } else { ", then " })?;
                write!(f, "refused with 28, since a text passes 255 bytes")
            }
        }
    }
}

// All that comes of a label.
#[derive(Clone, Copy)]
struct Outcomes<'a>(&'a [Trial]);

impl fmt::Display for Outcomes<'_> {
    ghost output = { λ o. Some (outcomes_words o.0.now) };

    fn fmt<W: fmt::Write>(&self, f: &mut fmt::Formatter<W>) -> fmt::Result {
        let [trial, more @ ..] = self.0 else {
            return Ok(());
        };
        write!(
            f,
            "{}",
            OutcomeWords {
                first: true,
                outcome: trial.outcome
            }
        )?;
        for trial in more {
            write!(
                f,
                "{}",
                OutcomeWords {
                    first: false,
                    outcome: trial.outcome
                }
            )?;
        }
        Ok(())
    }
}

// Whether any of these labels touches a request.
pub(crate) fn any_touches(aliases: &[AliasRow], request: &[u8]) -> bool
    ensures one_touches_by_its_form { result ≡ list_any (λ a. touches a.label request.now) (map alias_of aliases.now) }
{
    aliases.iter().any(|row| key_matches(row.label(), request))
}

// A label that touches the request.
#[derive(Clone, Copy)]
struct Touching<'a> {
    request: &'a [u8],
    label: &'a [u8],
}

impl fmt::Display for Touching<'_> {
    ghost output = { λ t. Some (touching_words t.request.now t.label.now) };

    fn fmt<W: fmt::Write>(&self, f: &mut fmt::Formatter<W>) -> fmt::Result {
        write!(
            f,
            "  Label {} touches {}",
            Shown(self.label),
            Shown(self.request)
        )
    }
}

// The lines on the labels that touch a request, where nothing is tried of them.
#[derive(Clone, Copy)]
struct PassedOver<'a> {
    request: &'a [u8],
    aliases: &'a [AliasRow],
}

impl fmt::Display for PassedOver<'_> {
    ghost output = { λ p. Some (flat_map (passed_over p.request.now) (map alias_of p.aliases.now)) };

    fn fmt<W: fmt::Write>(&self, f: &mut fmt::Formatter<W>) -> fmt::Result {
        let request = self.request;
        for row in self.aliases {
            let label = row.label();
            if key_matches(label, request) {
                let touching = Touching { request, label };
                writeln!(f, "{touching}: all its values are passed over")?;
            }
        }
        Ok(())
    }
}

// The lines where nothing is tried of any label.
#[derive(Clone, Copy)]
struct Undecided<'a>(PassedOver<'a>);

impl fmt::Display for Undecided<'_> {
    ghost output = { λ u. Some (undecided_lines (map alias_of u.0.aliases.now) u.0.request.now) };

    fn fmt<W: fmt::Write>(&self, f: &mut fmt::Formatter<W>) -> fmt::Result {
        let PassedOver { request, aliases } = self.0;
        write!(f, "{}", self.0)?;
        if any_touches(aliases, request) {
            return Ok(());
        }
        writeln!(f, "  No label touches {}", Shown(request))
    }
}

/// Which labels touch a request, up to the one that decides, if one does, and what its values try.
#[derive(Clone, Copy)]
pub struct Labels<'a> {
    pub aliases: &'a [AliasRow],
    pub request: &'a [u8],
    pub decided: Option<usize>,
    pub trials: &'a [Trial],
}

impl fmt::Display for Labels<'_> {
    ghost output = { λ l. Some (labels_lines (map alias_of l.aliases.now) l.request.now l.decided l.trials.now) };

    fn fmt<W: fmt::Write>(&self, f: &mut fmt::Formatter<W>) -> fmt::Result {
        let (request, aliases) = (self.request, self.aliases);
        let Some(place) = self.decided else {
            return write!(f, "{}", Undecided(PassedOver { request, aliases }));
        };
        let (before, from) = aliases.split_at(place.min(aliases.len()));
        let passed = PassedOver {
            request,
            aliases: before,
        };
        let label = from.first().map_or(b"".as_slice(), |row| row.label());
        let touching = Touching { request, label };
        writeln!(f, "{passed}{touching}{}", Outcomes(self.trials))
    }
}
