// What a resolver can be asked: to resolve a request, to forget, and how many paths it has handed out.
ghost use Rattle.std.specs.Prelude.{◌≡◌, ◌≤◌, ◌+◌, List, [], ◌∷◌, ◌++◌, length, min};
ghost use Rattle.lookup.specs.Blank.{blank_call};
ghost use Rattle.lookup.specs.Outcomes.{answer, area_after, buffers_after, refusal, room_of, rounds_at_most, rows_after};
ghost use Rattle.lookup.specs.Resolutions.{resolution_of};
ghost use Rattle.resolver.specs.Handed.{FirstCandidate, NotFoundIfNone, OnlyAcceptablePaths};
ghost use Rattle.resolver.specs.Runs.{Event, Reached, asked, ceiling, forgot, paths_in, tallied};
ghost use Rattle.tree.specs.Meanings.{forgetting};
ghost use Rattle.settings.specs.Meant.{tables};

use crate::Resolver;
use lookup::{OpenCall, Resolution, answer_call};
use settings::Settings;
use tree::{FileTree, Host, Policy};

// How many paths were handed out after an answer.
fn counted(handed_out: u32, resolution: &Resolution) -> u32
    ensures a_path_counts { result ≡ min (handed_out + paths_in resolution.now.outcome) ceiling }
{
    if resolution.outcome.is_ok() {
        handed_out.saturating_add(1)
    } else {
        handed_out
    }
}

impl<H: Host, P: Policy> Resolver<H, P> {
    /// A resolver that has handed out no path.
    #[tactic(auto, using(crate::proofs::Runs::nothing_yet))]
    pub fn new(settings: Settings, host: H, policy: P) -> Resolver<H, P>
        requires sound { H.FileTree.sound host }
        ensures with_what_was_given { (result.settings ≡ settings) × (result.host ≡ host) × (result.policy ≡ policy) }
        ensures no_path_yet { result.handed_out ≡ 0 }
        ensures nothing_has_been { Reached (H.FileTree.meaning host) (P.Policy.allowed policy) (tables settings) [] result.handed_out }
    {
        Resolver {
            settings,
            host,
            policy,
            handed_out: 0,
        }
    }

    /// Resolves a request from a directory: what it answers, the bytes of the three buffers and what is left of the lent memory are as defined.
    pub fn resolve(
        &mut self,
        directory: &[u8],
        request: &[u8],
        area: &mut [u8],
        rows: &mut [OpenCall],
        first: &mut [u8],
        second: &mut [u8],
        third: &mut [u8],
    ) -> Resolution
        requires sound { H.FileTree.sound self.old.host }
        ensures answered_as_defined { result ≡ resolution_of (answer (H.FileTree.meaning self.old.host) (P.Policy.allowed self.old.policy) (tables self.old.settings) (room_of area.old rows.old first.old second.old third.old) directory.now request.now) }
        ensures buffers_as_defined { (first.new, (second.new, third.new)) ≡ buffers_after (answer (H.FileTree.meaning self.old.host) (P.Policy.allowed self.old.policy) (tables self.old.settings) (room_of area.old rows.old first.old second.old third.old) directory.now request.now) (first.old, (second.old, third.old)) }
        ensures area_as_defined { area.new ≡ area_after (refusal (room_of area.old rows.old first.old second.old third.old) directory.now request.now) area.old }
        ensures rows_as_defined { rows.new ≡ rows_after blank_call (refusal (room_of area.old rows.old first.old second.old third.old) directory.now request.now) rows.old }
        ensures a_path_counts { self.new.handed_out ≡ min (self.old.handed_out + paths_in result.outcome) ceiling }
        ensures run_goes_on_as_defined { (past : List Event) → Reached (H.FileTree.meaning self.old.host) (P.Policy.allowed self.old.policy) (tables self.old.settings) past self.old.handed_out → Reached (H.FileTree.meaning self.new.host) (P.Policy.allowed self.new.policy) (tables self.new.settings) (past ++ asked directory.now request.now (room_of area.old rows.old first.old second.old third.old) result (first.old, (second.old, third.old)) (first.new, (second.new, third.new)) ∷ []) self.new.handed_out }
        ensures at_most_64_rounds_run { result.rounds ≤ rounds_at_most }
        ensures only_acceptable_paths_are_handed_out { OnlyAcceptablePaths (H.FileTree.meaning self.old.host) (P.Policy.allowed self.old.policy) (tables self.old.settings) result first.new }
        ensures first_acceptable_candidate_is_handed_out { FirstCandidate (H.FileTree.meaning self.old.host) (P.Policy.allowed self.old.policy) (tables self.old.settings) (room_of area.old rows.old first.old second.old third.old) directory.now request.now result first.new }
        ensures nothing_is_found_exactly_when_no_candidate_is_acceptable { NotFoundIfNone (H.FileTree.meaning self.old.host) (P.Policy.allowed self.old.policy) (tables self.old.settings) (room_of area.old rows.old first.old second.old third.old) directory.now request.now result first.new }
        ensures settings_and_policy_stay { (self.new.settings ≡ self.old.settings) × (self.new.policy ≡ self.old.policy) }
        ensures same_meaning { H.FileTree.meaning self.new.host ≡ H.FileTree.meaning self.old.host }
        ensures still_sound { H.FileTree.sound self.new.host }
    {
        let Resolver {
            settings,
            host,
            policy,
            handed_out,
            ..
        } = self;
        let resolution = answer_call(
            host, policy, settings, directory, request, area, rows, first, second, third,
        );
        *handed_out = counted(*handed_out, &resolution);
        resolution
    }

    /// Lets go of what is only kept to answer faster.
    pub fn forget(&mut self)
        requires sound { H.FileTree.sound self.old.host }
        ensures told_to_the_host { H.FileTree.steps self.old.host forgetting self.new.host }
        ensures all_else_stays { (self.new.settings ≡ self.old.settings) × (self.new.policy ≡ self.old.policy) × (self.new.handed_out ≡ self.old.handed_out) }
        ensures run_goes_on_as_defined { (past : List Event) → Reached (H.FileTree.meaning self.old.host) (P.Policy.allowed self.old.policy) (tables self.old.settings) past self.old.handed_out → Reached (H.FileTree.meaning self.new.host) (P.Policy.allowed self.new.policy) (tables self.new.settings) (past ++ forgot ∷ []) self.new.handed_out }
        ensures same_meaning { H.FileTree.meaning self.new.host ≡ H.FileTree.meaning self.old.host }
        ensures still_sound { H.FileTree.sound self.new.host }
    {
        self.host.forget();
    }

    /// How many paths were handed out, up to 4,294,967,295.
    pub fn tally(&self) -> u32
        ensures paths_handed_out { result ≡ self.now.handed_out }
        ensures run_goes_on_as_defined { (past : List Event) → Reached (H.FileTree.meaning self.now.host) (P.Policy.allowed self.now.policy) (tables self.now.settings) past self.now.handed_out → Reached (H.FileTree.meaning self.now.host) (P.Policy.allowed self.now.policy) (tables self.now.settings) (past ++ tallied result ∷ []) self.now.handed_out }
    {
        self.handed_out
    }
}
