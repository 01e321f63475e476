// A whole sheet: its entries fill a listing and settings, its calls are answered by a resolver over a cache over the listing.
ghost use Rattle.std.specs.Prelude.{◌≡◌, IfOk};
ghost use Rattle.sheets.specs.Answers.{sheet_rows};
ghost use Rattle.sheets.specs.Laws.{ALookupClosesTheTables, ClosedTablesStay, ForgettingNeverShows, LaterLinesOnlyAdd};

use crate::answering::answer;
use crate::reading::read;
use cache::Cache;
use listing::Listing;
use resolver::Resolver;
use settings::Settings;
use std::alloc::{AllocError, Global};
use tree::{FileTree, Host, PartCount, Policy};

// How many parts a path has at most that is handed out.
const MAX_DEPTH: usize = 255;

/// Answers a whole sheet: its rows are those of the definition, with what holds of every sheet.
pub fn answer_sheet(alloc: Global, sheet: &[u8]) -> Result<Vec<u8>, AllocError>
    ensures rows_of_the_sheet { IfOk result (λ rows. rows.items ≡ sheet_rows sheet.now) }
    ensures a_lookup_closes_the_tables { ALookupClosesTheTables }
    ensures closed_tables_stay { ClosedTablesStay }
    ensures later_lines_only_add { LaterLinesOnlyAdd }
    ensures forgetting_never_shows { ForgettingNeverShows }
{
    let mut listing = Listing::new();
    let mut settings = Settings::new();
    let tasks = read(alloc, &mut listing, &mut settings, sheet)?;
    let policy = PartCount { max: MAX_DEPTH };
    let mut resolver = Resolver::new(settings, Cache::new(listing), policy);
    answer(alloc, &mut resolver, sheet, tasks.as_slice())
}
