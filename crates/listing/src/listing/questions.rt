// The first line that fits a question decides.
ghost use Rattle.std.specs.Prelude.{◌≡◌, ◌+◌, ◌<◌, ◌≤◌, [], ◌∷◌, false, length, drop, ◌==◌, MatchOption};
ghost use Rattle.std.specs.Option.{option_map};
ghost use Rattle.stack.specs.Items.{item_at};
ghost use Rattle.listing.specs.Entries.{rows};
ghost use Rattle.listing.specs.Meanings.{DecidesAt, asked, deciding, mains_behind, place};
ghost use Rattle.listing.specs.Rows.{row};
ghost use Rattle.texts.specs.Hashes.{path_hash};

use crate::kinds::Topic;
use crate::line::Line;
use crate::listing::Listing;
use texts::path_hash;

// A hash of what is asked pays where one line is compared for every so many of its bytes: it is made from each of them, and a comparison without it stops early.
const BYTES_A_LINE: usize = 8;

// The hash of what is asked where it pays, and else 0.
fn hash_for(lines: &[Line], topic: Topic, text: &[u8]) -> u8
    ensures hash_of_the_path_if_there_is_one { (result == 0) ≡ false → result ≡ path_hash text.now }
{
    let compared = match topic {
        Topic::Kind | Topic::Manifest => lines.len(),
        Topic::Lookup(_) => 0,
    };
    if compared.saturating_mul(BYTES_A_LINE) <= text.len() {
        return 0;
    }
    path_hash(text)
}

impl Listing {
    pub(crate) fn line(&self, i: usize) -> &Line
        requires among_the_lines { i < length (rows self.now) }
        ensures row_at_the_place { drop i (rows self.now) ≡ row result.now ∷ drop (i + 1) (rows self.now) }
    {
        &self.lines.as_slice()[i]
    }

    /// Which line decides what is asked about `text`: the place of the first that fits.
    pub fn deciding_line(&self, topic: Topic, text: &[u8]) -> Option<usize>
        ensures place_of_the_first_that_fits { result ≡ place (asked topic text.now) (rows self.now) }
        ensures rows_from_there_decide { MatchOption result (deciding (asked topic text.now) (rows self.now) ≡ []) (DecidesAt (asked topic text.now) (rows self.now)) }
    {
        let lines = self.lines.as_slice();
        let hash = hash_for(lines, topic, text);
        lines.iter().position(|line| line.fits(topic, text, hash))
    }

    // This one and the next share the front of their chains, which cannot be handed out.
    // How many main texts a manifest has whose next line is at `start`.
    pub(crate) fn count_mains(&self, start: usize) -> usize
        requires among_the_lines_or_behind { start ≤ length (rows self.now) }
        ensures counts_the_main_texts_from_there { result ≡ length (mains_behind (drop start (rows self.now))) }
    {
        let behind = &self.lines.as_slice()[start..];
        behind
            .iter()
            .take_while(|line| !line.is_manifest())
            .filter(|line| line.is_main())
            .count()
    }

    // The main text at `place` of such a manifest.
    pub(crate) fn find_main(&self, start: usize, place: usize) -> Option<&[u8]>
        requires among_the_lines_or_behind { start ≤ length (rows self.now) }
        ensures main_text_at_the_place { option_map (λ x. x.now) result ≡ item_at (mains_behind (drop start (rows self.now))) place }
    {
        let behind = &self.lines.as_slice()[start..];
        behind
            .iter()
            .take_while(|line| !line.is_manifest())
            .filter(|line| line.is_main())
            .nth(place)
            .map(|line| line.first.as_bytes())
    }
}
