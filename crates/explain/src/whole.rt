// All that is told of a sheet, each sentence written as it is made.
ghost use Rattle.std.specs.Prelude.{◌≡◌, [], IfOk, OnOk, map};
ghost use Rattle.std.specs.Io.KnownBytes.{Appends};
ghost use Rattle.std.specs.List.{flat_map};
ghost use Rattle.cache.specs.Held.{Agrees, held};
ghost use Rattle.listing.specs.Entries.{rows};
ghost use Rattle.listing.specs.Meanings.{listed};
ghost use Rattle.settings.specs.Meant.{tables};
ghost use Rattle.settings.specs.Tables.{unset};
ghost use Rattle.explain.specs.Filling.{filled_by, noted};
ghost use Rattle.explain.specs.Telling.{TellsSheet, Written, refused_line};

use crate::front::fill;
use crate::sentence::{Refused, Tally};
use crate::telling::tell_lines;
use cache::Cache;
use listing::Listing;
use resolver::Resolver;
use settings::Settings;
use std::alloc::{AllocError, Global};
use std::io::Write;
use tree::PartCount;

// How many parts a path has at most that is handed out.
const MAX_DEPTH: usize = 255;

// A resolver of its own for the front of a sheet, which counts and holds nothing yet.
fn resolver_of(
    alloc: Global,
    sheet: &[u8],
) -> Result<Resolver<Cache<Listing>, PartCount>, AllocError>
    ensures listing_of_the_front { IfOk result (λ r. rows r.host.below ≡ (filled_by [] unset sheet.now).rows) }
    ensures settings_of_the_front { IfOk result (λ r. tables r.settings ≡ (filled_by [] unset sheet.now).tables) }
    ensures policy_of_255_parts { IfOk result (λ r. r.policy.max ≡ 255) }
    ensures no_path_yet { IfOk result (λ r. r.handed_out ≡ 0) }
    ensures sound { IfOk result (λ r. Agrees (listed (rows r.host.below)).kind (held r.host.recent)) }
{
    let mut listing = Listing::new();
    let mut settings = Settings::new();
    fill(alloc, &mut listing, &mut settings, sheet)?;
    let policy = PartCount { max: MAX_DEPTH };
    Ok(Resolver::new(settings, Cache::new(listing), policy))
}

// The lines of the front that are refused, each with its sentence.
fn refusals<W: Write>(refused: &[Refused], out: &mut W) -> anyhow::Result<()>
    ensures each_in_its_order { OnOk result (Appends (W.Write.contents out.old) (W.Write.contents out.new) (flat_map refused_line (map noted refused.now))) }
{
    for refusal in refused {
        writeln!(out, "{refusal}")?;
    }
    Ok(())
}

// The resolver is made first, and so the lines that are refused are held once.
/// All that is told of a sheet: the lines that are refused in its front, those behind it in their order, and the tally.
pub fn explain<W: Write>(alloc: Global, sheet: &[u8], out: &mut W) -> anyhow::Result<()>
    ensures all_that_is_told { OnOk result (Written (W.Write.contents out.old) (W.Write.contents out.new) (TellsSheet sheet.now)) }
{
    let mut resolver = resolver_of(alloc, sheet)?;
    let mut listing = Listing::new();
    let mut settings = Settings::new();
    let filled = fill(alloc, &mut listing, &mut settings, sheet)?;
    let mut host = Cache::new(listing);
    let policy = PartCount { max: MAX_DEPTH };
    refusals(filled.refused.as_slice(), out)?;
    tell_lines(
        alloc,
        &mut host,
        &policy,
        &settings,
        &mut resolver,
        filled.lines,
        out,
    )?;
    let tally = Tally {
        paths: resolver.tally(),
    };
    writeln!(out, "{tally}")?;
    Ok(())
}
