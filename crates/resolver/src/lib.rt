// The resolver: it looks requests up, forgets, and tells how many paths it has handed out, one call at a time or a whole list of calls.
#![tactic(auto)]

ghost use Rattle.std.specs.Prelude.{◌≤◌};

use lookup::Resolution;
use settings::Settings;
use texts::{MAX_LEN, Place};

mod calls;
mod piled;
mod serving;

pub use piled::serve_piled;

/// Looks requests up with the settings, the host and the policy that it was made with, and counts the paths that it hands out.
#[derive(Drop)]
pub struct Resolver<H, P> {
    settings: Settings,
    host: H,
    policy: P,
    handed_out: u32,
    ghost counts_up_to_its_ceiling: { handed_out ≤ 4294967295 },
}

/// One call of a list. Its texts are told by their places in the text of the list.
#[derive(Clone, Copy, PartialEq, Eq, Debug)]
pub enum Call {
    Resolve { directory: Place, request: Place },
    Forget,
    Tally,
}

/// What a call of a list was answered.
#[derive(Clone, Copy, PartialEq, Eq, Debug)]
pub enum Answered {
    // not served yet
    Unserved,
    Resolved(Resolution),
    Forgotten,
    Counted(u32),
}

/// The reply to one call of a list: what it was answered, and the three buffers of a resolve, with its texts at their fronts.
#[derive(Clone, Copy)]
pub struct Reply {
    pub answered: Answered,
    pub first: [u8; MAX_LEN],
    pub second: [u8; MAX_LEN],
    pub third: [u8; MAX_LEN],
}
