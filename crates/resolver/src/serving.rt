// A whole list of calls, each with its reply.
ghost use Rattle.std.specs.Prelude.{◌≡◌, ℕ, ◌+◌, ◌++◌, List, length, min, take, drop, replicate};
ghost use Rattle.lookup.specs.Blank.{blank_call};
ghost use Rattle.resolver.specs.Runs.{Event, Reached, ceiling};
ghost use Rattle.resolver.specs.declared.Answered.TheVariants.{Unserved};
ghost use Rattle.resolver.specs.Served.{Moves, MovesOn, Served, buffers_of, due, events, memory_by, memory_then, paths_by, paths_of};
ghost use Rattle.settings.specs.Meant.{tables};

use crate::{Answered, Call, Reply, Resolver};
use lookup::OpenCall;
use texts::MAX_LEN;
use tree::{FileTree, Host, Policy};

impl Reply {
    /// The reply to a call that is not served yet.
    pub fn blank() -> Reply
        ensures not_served_yet { result.answered ≡ Unserved }
        ensures buffers_of_zeros { buffers_of result ≡ (replicate 255 0, (replicate 255 0, replicate 255 0)) }
    {
        Reply {
            answered: Answered::Unserved,
            first: [0; MAX_LEN],
            second: [0; MAX_LEN],
            third: [0; MAX_LEN],
        }
    }
}

impl<H: Host, P: Policy> Resolver<H, P> {
    // Serves one call of a list.
    fn serve_one(
        &mut self,
        texts: &[u8],
        call: Call,
        area: &mut [u8],
        rows: &mut [OpenCall],
        reply: &mut Reply,
    )
        requires sound { H.FileTree.sound self.old.host }
        ensures reply_is_due { (n : ℕ) → self.old.handed_out ≡ min n ceiling → (reply.new.answered, buffers_of reply.new) ≡ due (H.FileTree.meaning self.old.host) (P.Policy.allowed self.old.policy) (tables self.old.settings) (length area.old) (length rows.old) texts.now n call reply.old }
        ensures paths_count { self.new.handed_out ≡ min (self.old.handed_out + paths_by reply.new.answered) ceiling }
        ensures area_as_defined { area.new ≡ memory_by (length area.old) (length rows.old) texts.now 0 call reply.old area.old }
        ensures rows_as_defined { rows.new ≡ memory_by (length area.old) (length rows.old) texts.now blank_call call reply.old rows.old }
        ensures host_is_told { Moves H.FileTree.steps call self.old.host self.new.host }
        ensures settings_and_policy_stay { (self.new.settings ≡ self.old.settings) × (self.new.policy ≡ self.old.policy) }
        ensures same_meaning { H.FileTree.meaning self.new.host ≡ H.FileTree.meaning self.old.host }
        ensures still_sound { H.FileTree.sound self.new.host }
    {
        let Reply {
            answered,
            first,
            second,
            third,
        } = reply;
        *answered = match call {
            Call::Resolve { directory, request } => {
                let directory = directory.of(texts);
                let request = request.of(texts);
                Answered::Resolved(self.resolve(
                    directory, request, area, rows, first, second, third,
                ))
            }
            Call::Forget => {
                self.forget();
                Answered::Forgotten
            }
            Call::Tally => Answered::Counted(self.tally()),
        };
    }

    /// Serves a list of calls, one after the other, as many as have a reply: their texts stand in `texts`.
    pub fn serve(
        &mut self,
        texts: &[u8],
        calls: &[Call],
        area: &mut [u8],
        rows: &mut [OpenCall],
        replies: &mut [Reply],
    ) -> usize
        requires sound { H.FileTree.sound self.old.host }
        ensures as_many_as_have_a_reply { result ≡ min (length calls.now) (length replies.old) }
        ensures every_run_answers_by_its_definition { (n : ℕ) → self.old.handed_out ≡ min n ceiling → Served (H.FileTree.meaning self.old.host) (P.Policy.allowed self.old.policy) (tables self.old.settings) (length area.old) (length rows.old) texts.now n (take result calls.now) (take result replies.old) (take result replies.new) }
        ensures run_goes_on_as_defined { (past : List Event) → Reached (H.FileTree.meaning self.old.host) (P.Policy.allowed self.old.policy) (tables self.old.settings) past self.old.handed_out → Reached (H.FileTree.meaning self.new.host) (P.Policy.allowed self.new.policy) (tables self.new.settings) (past ++ events (length area.old) (length rows.old) texts.now (take result calls.now) (take result replies.old) (take result replies.new)) self.new.handed_out }
        ensures other_replies_stay { drop result replies.new ≡ drop result replies.old }
        ensures tally_counts_the_paths { self.new.handed_out ≡ min (self.old.handed_out + paths_of (take result replies.new)) ceiling }
        ensures area_as_defined { area.new ≡ memory_then (length area.old) (length rows.old) texts.now 0 (take result calls.now) (take result replies.old) area.old }
        ensures rows_as_defined { rows.new ≡ memory_then (length area.old) (length rows.old) texts.now blank_call (take result calls.now) (take result replies.old) rows.old }
        ensures host_is_told { MovesOn H.FileTree.steps (take result calls.now) self.old.host self.new.host }
        ensures settings_and_policy_stay { (self.new.settings ≡ self.old.settings) × (self.new.policy ≡ self.old.policy) }
        ensures same_meaning { H.FileTree.meaning self.new.host ≡ H.FileTree.meaning self.old.host }
        ensures still_sound { H.FileTree.sound self.new.host }
    {
        let served = calls.len().min(replies.len());
        for i in 0..served {
            self.serve_one(texts, calls[i], area, rows, &mut replies[i]);
        }
        served
    }
}
