// The work text: texts of at most 255 bytes, each in a unit of 256.
ghost use Rattle.std.specs.Prelude.{◌≡◌, ◌+◌, ◌*◌, ◌≤◌, length};
ghost use Rattle.texts.specs.Parts.{text_at};
ghost use Rattle.lookup.specs.Areas.{OnlyIn, place_in};
ghost use Rattle.lookup.specs.Opened.{first_unit};

use texts::Place;

// How many bytes there are for a text.
const UNIT: usize = 256;

// How many units there are for a round, and how many for the directory and the request of a call.
const UNITS: usize = 6;

const CALL_UNITS: usize = 2;

// The first unit of a round, by the rounds before it.
pub(crate) fn first_unit(round: usize) -> usize
    requires few { round ≤ 65536 }
    ensures first_of_its_units { result ≡ first_unit round }
{
    CALL_UNITS + UNITS * round
}

// Writes a text to a unit of the work text, and says where it stands.
#[tactic(auto, using(crate::proofs::Areas::only_there, crate::proofs::Areas::placed_here))]
pub(crate) fn put(work: &mut [u8], unit: usize, text: &[u8]) -> Place
    requires short { length text.now ≤ 255 }
    requires room { 256 * unit + 256 ≤ length work.old }
    ensures place_in_its_unit { result ≡ place_in unit (length text.now) }
    ensures text_in_its_place { text_at work.new result ≡ text.now }
    ensures only_its_unit_is_written { OnlyIn unit work.old work.new }
{
    let start = UNIT * unit;
    let end = start + text.len();
    work[start..end].copy_from_slice(text);
    Place {
        start,
        len: text.len(),
    }
}
