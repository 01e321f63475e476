// The lines on the candidates of a path.
ghost use Rattle.std.specs.Prelude.{◌≡◌, ◌&&◌, Some, map, not, true};
ghost use Rattle.texts.specs.Texts.{Text as Bytes};
ghost use Rattle.explain.specs.Offers.{candidate_line, candidate_lines, may_pass, shown, verdict_words};

use crate::offer::{Offer, Verdict};
use crate::shown::Shown;
use candidates::Fault;
use std::fmt;

// What becomes of a candidate, in words.
impl fmt::Display for Verdict {
    ghost output = { λ v. Some (verdict_words v) };

    fn fmt<W: fmt::Write>(&self, f: &mut fmt::Formatter<W>) -> fmt::Result {
        f.write_str(match self {
            Verdict::Nothing => "nothing there",
            Verdict::Directory => "a directory",
            Verdict::Forbidden => "a file that the policy does not allow",
            Verdict::Restricted => "a file that differs from a restriction",
            Verdict::Acceptable => "an acceptable file",
        })
    }
}

// Whether no acceptable candidate has come yet, once this one has.
fn stays_open(first: bool, offer: &Result<Offer, Fault>) -> bool
    ensures until_an_acceptable_one { (path : Bytes) → result ≡ (first && not (may_pass (shown path offer.now))) }
{
    match offer {
        Ok(offer) if offer.verdict == Verdict::Acceptable => false,
        _ => first,
    }
}

// The line on a candidate; the first acceptable one is marked.
#[derive(Clone, Copy)]
struct OfferLine<'a> {
    path: &'a [u8],
    first: bool,
    offer: &'a Result<Offer, Fault>,
}

impl fmt::Display for OfferLine<'_> {
    ghost output = { λ o. Some (candidate_line o.first (shown o.path.now o.offer.now)) };

    fn fmt<W: fmt::Write>(&self, f: &mut fmt::Formatter<W>) -> fmt::Result {
        match *self.offer {
            Ok(Offer { text, verdict }) => {
                let mark = match verdict {
                    Verdict::Acceptable if self.first => ", the first",
                    _ => "",
                };
                writeln!(f, "    {} is {verdict}{mark}", Shown(text.as_bytes()))
            }
            Err(Fault::BrokenManifest) => writeln!(
                f,
                "    refused with 30, since the manifest of {} is broken",
                Shown(self.path)
            ),
            Err(Fault::TooLong) => {
                writeln!(f, "    refused with 28, since a text passes 255 bytes")
            }
        }
    }
}

/// The candidates of a path in their order, each with what becomes of it; the first acceptable one is marked.
#[derive(Clone, Copy)]
pub struct Offered<'a> {
    pub path: &'a [u8],
    pub offers: &'a [Result<Offer, Fault>],
}

impl fmt::Display for Offered<'_> {
    ghost output = { λ o. Some (candidate_lines true (map (shown o.path.now) o.offers.now)) };

    fn fmt<W: fmt::Write>(&self, f: &mut fmt::Formatter<W>) -> fmt::Result {
        let path = self.path;
        let mut first = true;
        for offer in self.offers {
            write!(f, "{}", OfferLine { path, first, offer })?;
            first = stays_open(first, offer);
        }
        Ok(())
    }
}
