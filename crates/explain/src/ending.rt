// What a lookup of the resolver ends in.
ghost use Rattle.std.specs.Prelude.{◌≡◌, ◌+◌, length, min};
ghost use Rattle.settings.specs.Meant.{tables};
ghost use Rattle.lookup.specs.Outcomes.{answer};
ghost use Rattle.resolver.specs.Runs.{ceiling, paths_in};
ghost use Rattle.explain.specs.Ends.{end_in, end_of};
ghost use Rattle.sheets.specs.Rows.{lent};

use crate::question::Question;
use lookup::{MIN_AREA, MIN_ROWS, OpenCall, Resolution};
use resolver::Resolver;
use texts::MAX_LEN;
use tree::{FileTree, Host, Policy};

/// The memory that is lent to the lookups of a sheet, one after the other.
#[derive(Drop)]
pub(crate) struct Memory {
    area: [u8; MIN_AREA],
    rows: [OpenCall; MIN_ROWS],
}

impl Memory {
    /// As much as a lookup asks for, blank.
    pub(crate) fn new() -> Memory
        ensures as_much_as_a_lookup_asks_for { (length result.area ≡ 131072) × (length result.rows ≡ 1024) }
    {
        Memory {
            area: [0; MIN_AREA],
            rows: [OpenCall::blank(); MIN_ROWS],
        }
    }
}

/// What a lookup ends in: its answer, and the buffers with its texts.
#[derive(Clone, Copy)]
pub struct LookupEnd {
    pub resolution: Resolution,
    pub first: [u8; MAX_LEN],
    pub second: [u8; MAX_LEN],
    pub third: [u8; MAX_LEN],
}

impl LookupEnd {
    /// Looks a question up, with the memory that is lent.
    pub fn of<H: Host, P: Policy>(
        resolver: &mut Resolver<H, P>,
        question: Question,
        memory: &mut Memory,
    ) -> LookupEnd
        requires sound { H.FileTree.sound resolver.old.host }
        ensures ends_as_defined { end_in result ≡ end_of (answer (H.FileTree.meaning resolver.old.host) (P.Policy.allowed resolver.old.policy) (tables resolver.old.settings) lent question.entry.directory.now question.entry.request.now) }
        ensures a_path_counts { resolver.new.handed_out ≡ min (resolver.old.handed_out + paths_in result.resolution.outcome) ceiling }
        ensures settings_and_policy_stay { (resolver.new.settings ≡ resolver.old.settings) × (resolver.new.policy ≡ resolver.old.policy) }
        ensures same_meaning { H.FileTree.meaning resolver.new.host ≡ H.FileTree.meaning resolver.old.host }
        ensures still_sound { H.FileTree.sound resolver.new.host }
    {
        let mut first = [0; MAX_LEN];
        let mut second = [0; MAX_LEN];
        let mut third = [0; MAX_LEN];
        let resolution = resolver.resolve(
            question.directory,
            question.request,
            &mut memory.area,
            &mut memory.rows,
            &mut first,
            &mut second,
            &mut third,
        );
        LookupEnd {
            resolution,
            first,
            second,
            third,
        }
    }
}
