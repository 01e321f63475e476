// Which questions are quiet, and where a lookup of those ends.
ghost use Rattle.std.specs.Prelude.{◌≡◌, [], ◌∷◌, IfOk, IfSome, None, is_some, map, true};
ghost use Rattle.std.specs.List.{list_all};
ghost use Rattle.std.specs.Option.{option_map};
ghost use Rattle.texts.specs.Held.{bytes_of};
ghost use Rattle.texts.specs.Parts.{parts};
ghost use Rattle.texts.specs.Texts.{Text as Bytes, has};
ghost use Rattle.paths.specs.Joins.{join};
ghost use Rattle.specifier.specs.Accepted.{askable, startable};
ghost use Rattle.settings.specs.Meant.{tables};
ghost use Rattle.settings.specs.Rows.{alias_of};
ghost use Rattle.lookup.specs.Laws.{candidates_of, untouched};
ghost use Rattle.lookup.specs.Outcomes.{Room, answer, refusal};
ghost use Rattle.lookup.specs.Quiet.{readable};
ghost use Rattle.explain.specs.Offers.{judged, shown};
ghost use Rattle.explain.specs.Quiet.{QuietQuestion, first_acceptable, is_untouched, may_be_quiet, quiet_outcome};

use crate::offer::{Offer, Verdict, offers};
use crate::question::Question;
use crate::reading::sought;
use crate::sentence::{QuietEnd, any_touches};
use candidates::{Fault, asks_for_directory};
use settings::{AliasRow, Settings};
use specifier::Branch;
use std::alloc::{AllocError, Global};
use texts::{MAX_LEN, Text};
use tree::{FileTree, Host, Policy};

// Whether a text has a byte.
fn has_byte(text: &[u8], byte: u8) -> bool
    ensures some_byte_is_it { result ≡ has byte text.now }
{
    text.iter().any(|b| *b == byte)
}

// Whether no label touches a text.
fn is_untouched_by(aliases: &[AliasRow], text: &[u8]) -> bool
    ensures untouched_by_definition { result ≡ untouched (map alias_of aliases.now) text.now }
{
    !any_touches(aliases, text)
}

// Whether a request may be quiet by itself, before its manifest and its candidates are looked at.
fn may_be_quiet(settings: &Settings, request: &[u8]) -> bool
    ensures out_of_context_relative_unmarked_and_untouched { result ≡ may_be_quiet (tables settings.now) request.now }
{
    !settings.resolve_to_context()
        && !has_byte(request, b'?')
        && !has_byte(request, b'#')
        && matches!(Branch::of(request), Branch::Relative)
        && is_untouched_by(settings.aliases(), request)
}

// Whether the manifest at a path is not broken; none is not broken either.
fn is_readable<H: Host>(host: &mut H, path: &[u8]) -> bool
    requires sound { H.FileTree.sound host.old }
    ensures readable_by_definition { result ≡ readable ((H.FileTree.meaning host.old).manifest (parts path.now)) }
    ensures same_meaning { H.FileTree.meaning host.new ≡ H.FileTree.meaning host.old }
    ensures still_sound { H.FileTree.sound host.new }
{
    host.manifest(path).is_ok()
}

// Whether no label touches a candidate.
fn is_untouched(aliases: &[AliasRow], offer: &Result<Offer, Fault>) -> bool
    ensures untouched_by_definition { (path : Bytes) → result ≡ is_untouched (map alias_of aliases.now) (shown path offer.now) }
{
    match offer {
        Ok(offer) => is_untouched_by(aliases, offer.text.as_bytes()),
        Err(_) => true,
    }
}

// Whether no label touches any of the candidates.
fn all_untouched(aliases: &[AliasRow], offers: &[Result<Offer, Fault>]) -> bool
    ensures each_is_untouched { (path : Bytes) → result ≡ list_all (is_untouched (map alias_of aliases.now)) (map (shown path) offers.now) }
{
    offers.iter().all(|offer| is_untouched(aliases, offer))
}

// The candidate if it may be handed out.
fn acceptable(offer: &Result<Offer, Fault>) -> Option<Text<MAX_LEN>>
    ensures alone_if_it_may { (path : Bytes) → option_map bytes_of result ≡ first_acceptable (shown path offer.now ∷ []) }
{
    match offer {
        Ok(offer) if offer.verdict == Verdict::Acceptable => Some(offer.text),
        _ => None,
    }
}

// The text of the first candidate that may be handed out.
fn first_acceptable(offers: &[Result<Offer, Fault>]) -> Option<Text<MAX_LEN>>
    ensures first_that_may_be_handed_out { (path : Bytes) → option_map bytes_of result ≡ first_acceptable (map (shown path) offers.now) }
{
    for offer in offers {
        if let Some(text) = acceptable(offer) {
            return Some(text);
        }
    }
    None
}

/// All candidates of a quiet question, each with its verdict; none if it is not quiet, or in context mode.
pub fn quiet_offers<H: Host, P: Policy>(
    alloc: Global,
    host: &mut H,
    policy: &P,
    settings: &Settings,
    question: Question,
) -> Result<Option<Vec<Result<Offer, Fault>>>, AllocError>
    requires sound { H.FileTree.sound host.old }
    ensures only_of_a_quiet_question { IfOk result (λ found. is_some found ≡ true → QuietQuestion (H.FileTree.meaning host.old) (tables settings.now) question.entry.directory.now question.entry.request.now) }
    ensures of_every_quiet_question_that_is_accepted { IfOk result (λ found. startable question.entry.directory.now ≡ true → askable question.entry.request.now ≡ true → QuietQuestion (H.FileTree.meaning host.old) (tables settings.now) question.entry.directory.now question.entry.request.now → is_some found ≡ true) }
    ensures every_candidate_with_its_verdict { IfOk result (λ found. IfSome found (λ v. map (shown (join question.entry.directory.now question.entry.request.now)) v.items ≡ map (judged (H.FileTree.meaning host.old) (P.Policy.allowed policy.now) (tables settings.now).restrictions) (candidates_of (H.FileTree.meaning host.old) (tables settings.now) question.entry.directory.now question.entry.request.now))) }
    ensures same_meaning { H.FileTree.meaning host.new ≡ H.FileTree.meaning host.old }
    ensures still_sound { H.FileTree.sound host.new }
{
    let request = question.request;
    if !may_be_quiet(settings, request) {
        return Ok(None);
    }
    let Some(path) = sought(question) else {
        return Ok(None);
    };
    let path = path.as_bytes();
    if !is_readable(host, path) {
        return Ok(None);
    }
    let offers = offers(
        alloc,
        host,
        policy,
        settings,
        asks_for_directory(request),
        path,
    )?;
    if !all_untouched(settings.aliases(), &offers) {
        return Ok(None);
    }
    Ok(Some(offers))
}

/// Where a lookup of a quiet question ends; none if it is not quiet, or in context mode.
pub fn quiet_end<H: Host, P: Policy>(
    alloc: Global,
    host: &mut H,
    policy: &P,
    settings: &Settings,
    question: Question,
) -> Result<Option<QuietEnd>, AllocError>
    requires sound { H.FileTree.sound host.old }
    ensures only_of_a_quiet_question { IfOk result (λ end. is_some end ≡ true → QuietQuestion (H.FileTree.meaning host.old) (tables settings.now) question.entry.directory.now question.entry.request.now) }
    ensures of_every_quiet_question_that_is_accepted { IfOk result (λ end. startable question.entry.directory.now ≡ true → askable question.entry.request.now ≡ true → QuietQuestion (H.FileTree.meaning host.old) (tables settings.now) question.entry.directory.now question.entry.request.now → is_some end ≡ true) }
    ensures every_accepted_call_answers_so { IfOk result (λ end. IfSome end (λ e. (lent : Room) → refusal lent question.entry.directory.now question.entry.request.now ≡ None → answer (H.FileTree.meaning host.old) (P.Policy.allowed policy.now) (tables settings.now) lent question.entry.directory.now question.entry.request.now ≡ quiet_outcome question.entry.request.now (option_map bytes_of e.path))) }
    ensures same_meaning { H.FileTree.meaning host.new ≡ H.FileTree.meaning host.old }
    ensures still_sound { H.FileTree.sound host.new }
{
    let Some(offers) = quiet_offers(alloc, host, policy, settings, question)? else {
        return Ok(None);
    };
    let path = first_acceptable(&offers);
    Ok(Some(QuietEnd { path }))
}
