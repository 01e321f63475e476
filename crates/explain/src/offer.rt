// The candidates of a path, each with what stands there and whether it may be handed out.
ghost use Rattle.std.specs.Prelude.{◌≡◌, IfOk, length, map};
ghost use Rattle.texts.specs.Held.{bytes_of};
ghost use Rattle.texts.specs.Texts.{Text as Bytes};
ghost use Rattle.settings.specs.Meant.{tables};
ghost use Rattle.tree.specs.Acceptances.{acceptable};
ghost use Rattle.candidates.specs.Candidates.{candidates};
ghost use Rattle.candidates.specs.Answers.{said};
ghost use Rattle.explain.specs.Offers.{judged, passes, shown, verdict_of};

use crate::trial::held;
use candidates::{Fault, Walk};
use settings::Settings;
use std::alloc::{AllocError, Global};
use texts::{MAX_LEN, Place, Text};
use tree::{FileTree, Host, Kind, Policy, is_acceptable};

/// What becomes of a candidate.
#[derive(Clone, Copy, PartialEq, Eq, Debug)]
pub enum Verdict {
    Nothing,
    Directory,
    // a file that the policy does not allow
    Forbidden,
    // a file that differs from a restriction
    Restricted,
    Acceptable,
}

/// A candidate with its verdict.
#[derive(Clone, Copy)]
pub struct Offer {
    pub text: Text<MAX_LEN>,
    pub verdict: Verdict,
}

// What becomes of a path.
#[tactic(auto, unfolding(tree::specs::Acceptances::acceptable))]
fn verdict_on<T: FileTree, P: Policy>(
    tree: &mut T,
    policy: &P,
    restrictions: &[Text<MAX_LEN>],
    path: &[u8],
) -> Verdict
    requires sound { T.FileTree.sound tree.old }
    ensures verdict_by_definition { result ≡ verdict_of (T.FileTree.meaning tree.old) (P.Policy.allowed policy.now) (map bytes_of restrictions.now) path.now }
    ensures passes_if_acceptable { passes result ≡ acceptable (T.FileTree.meaning tree.old) (P.Policy.allowed policy.now) (map bytes_of restrictions.now) path.now }
    ensures same_meaning { T.FileTree.meaning tree.new ≡ T.FileTree.meaning tree.old }
    ensures still_sound { T.FileTree.sound tree.new }
{
    match tree.kind(path) {
        Kind::Nothing => Verdict::Nothing,
        Kind::Directory => Verdict::Directory,
        Kind::File => {
            if is_acceptable(tree, policy, restrictions, path) {
                Verdict::Acceptable
            } else if policy.allows(path) {
                Verdict::Restricted
            } else {
                Verdict::Forbidden
            }
        }
    }
}

// A candidate, judged.
fn judge<T: FileTree, P: Policy>(
    tree: &mut T,
    policy: &P,
    restrictions: &[Text<MAX_LEN>],
    candidate: Result<usize, Fault>,
    out: &[u8; MAX_LEN],
) -> Result<Offer, Fault>
    requires sound { T.FileTree.sound tree.old }
    ensures judged_by_definition { (path : Bytes) → shown path result ≡ judged (T.FileTree.meaning tree.old) (P.Policy.allowed policy.now) (map bytes_of restrictions.now) (said path out.now candidate) }
    ensures same_meaning { T.FileTree.meaning tree.new ≡ T.FileTree.meaning tree.old }
    ensures still_sound { T.FileTree.sound tree.new }
{
    let len = candidate?;
    let text = held(Place { start: 0, len }.of(out));
    let verdict = verdict_on(tree, policy, restrictions, text.as_bytes());
    Ok(Offer { text, verdict })
}

// The buffer is lent to the walk, by a rule of the project.
/// All candidates of a path, in their order, each with its verdict.
pub fn offers<H: Host, P: Policy>(
    alloc: Global,
    host: &mut H,
    policy: &P,
    settings: &Settings,
    inside: bool,
    path: &[u8],
) -> Result<Vec<Result<Offer, Fault>>, AllocError>
    requires sound { H.FileTree.sound host.old }
    ensures every_candidate_with_its_verdict { IfOk result (λ v. map (shown path.now) v.items ≡ map (judged (H.FileTree.meaning host.old) (P.Policy.allowed policy.now) (tables settings.now).restrictions) (candidates (tables settings.now) (tables settings.now).fully_specified (H.FileTree.meaning host.old) inside path.now)) }
    ensures same_meaning { H.FileTree.meaning host.new ≡ H.FileTree.meaning host.old }
    ensures still_sound { H.FileTree.sound host.new }
{
    let mut out = [0; MAX_LEN];
    let mut walk = Walk::new(inside);
    let mut found = Vec::new(alloc);
    let fully = settings.fully_specified();
    while let Some(candidate) = walk.next(host, settings, fully, path, &mut out) {
        found.push(judge(host, policy, settings.restrictions(), candidate, &out))?;
    }
    Ok(found)
}
