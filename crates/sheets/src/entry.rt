// Entries: the lines that fill the listing and the settings, and what is wrong with them.
ghost use Rattle.std.specs.Prelude.{◌≡◌};
ghost use Rattle.lines.specs.Sheets.{content_of, head_of};
ghost use Rattle.listing.specs.Entries.{rows};
ghost use Rattle.settings.specs.Meant.{tables};
ghost use Rattle.texts.specs.Taken.{taken_unless};
ghost use Rattle.sheets.specs.Entries.{closed_refusal, entry_refusal, listed_with, listing_refusal, rows_with, sets, tables_with};

use crate::refusal::Refusal;
use lines::{Head, Line};
use listing::Listing;
use settings::{Settings, is_setting_kind};

// The number that a full table is refused with, be it in the listing or in the settings.
const FULL: u8 = 12;

/// Whether a line is one of the settings, by its kind.
pub fn is_setting(line: &[u8]) -> bool
    ensures setting_or_flag_by_its_head { result ≡ sets (head_of line.now) }
{
    Head::read(line).is_ok_and(|head| is_setting_kind(head.kind))
}

// Takes a line into the listing, or says why not.
fn list(listing: &mut Listing, line: &[u8]) -> Result<(), Refusal>
    ensures taken_or_refused { result ≡ taken_unless (listing_refusal (rows listing.old) (content_of line.now)) }
    ensures rows_then { rows listing.new ≡ listed_with (rows listing.old) (content_of line.now) }
{
    let content = Line::read(line)?;
    listing.add(content.kind, content.first, content.second)?;
    Ok(())
}

/// Takes an entry into the listing or the settings, or says why not.
pub(crate) fn take(
    listing: &mut Listing,
    settings: &mut Settings,
    line: &[u8],
) -> Result<(), Refusal>
    ensures taken_or_refused { result ≡ taken_unless (entry_refusal (rows listing.old) (tables settings.old) line.now) }
    ensures rows_then { rows listing.new ≡ rows_with (rows listing.old) line.now }
    ensures tables_then { tables settings.new ≡ tables_with (tables settings.old) line.now }
{
    if !is_setting(line) {
        return list(listing, line);
    }
    settings.load(line)?;
    Ok(())
}

// Whether the listing would take a line, or why not.
fn check_listed(listing: &Listing, line: &[u8]) -> Result<(), Refusal>
    ensures taken_or_refused { result ≡ taken_unless (listing_refusal (rows listing.now) (content_of line.now)) }
{
    let content = Line::read(line)?;
    listing.check_line(content.kind, content.first, content.second)?;
    Ok(())
}

// Whether an entry would be taken, or why not.
fn check(listing: &Listing, settings: &Settings, line: &[u8]) -> Result<(), Refusal>
    ensures taken_or_refused { result ≡ taken_unless (entry_refusal (rows listing.now) (tables settings.now) line.now) }
{
    if !is_setting(line) {
        return check_listed(listing, line);
    }
    settings.check_line(line)?;
    Ok(())
}

/// Why an entry behind the first call is refused: what is wrong with it, or that the tables are closed.
pub(crate) fn refuse(listing: &Listing, settings: &Settings, line: &[u8]) -> Refusal
    ensures refused_as_closed_tables_refuse { result ≡ closed_refusal (entry_refusal (rows listing.now) (tables settings.now) line.now) }
{
    match check(listing, settings, line) {
        Ok(()) => Refusal::Closed,
        Err(refusal) => {
            if refusal.number() == FULL {
                return Refusal::Closed;
            }
            refusal
        }
    }
}
