// A resolver over a pile of layers.
ghost use Rattle.std.specs.Prelude.{◌≡◌, None, is_some, length, min, take, drop, IfSome};
ghost use Rattle.lookup.specs.Blank.{blank_call};
ghost use Rattle.mount.specs.Mounts.{mountable};
ghost use Rattle.piles.specs.Piles.{Pile, WellPiled, cached, host, means, mounting};
ghost use Rattle.resolver.specs.Piled.{LawsOver};
ghost use Rattle.resolver.specs.Served.{Served, memory_then};
ghost use Rattle.settings.specs.Meant.{tables};

use crate::{Call, Reply, Resolver};
use lookup::OpenCall;
use piles::pile_up;
use settings::Settings;
use tree::{FileTree, Host, Policy};

/// Serves a list of calls by a new resolver over a pile: a cache over a mount of a cached host and of a second host at the path `at`. Each of the two may be a pile itself. With a path that nothing can be mounted at nothing is served.
pub fn serve_piled<A: Host + Drop, B: Host + Drop, P: Policy + Drop>(
    settings: Settings,
    inside: A,
    card: B,
    at: &[u8],
    policy: P,
    texts: &[u8],
    calls: &[Call],
    area: &mut [u8],
    rows: &mut [OpenCall],
    replies: &mut [Reply],
) -> Option<usize>
    requires inside_is_sound { A.FileTree.sound inside }
    requires card_is_sound { B.FileTree.sound card }
    ensures served_at_a_clean_short_path { is_some result ≡ mountable at.now }
    ensures as_many_as_have_a_reply { IfSome result (λ n. n ≡ min (length calls.now) (length replies.old)) }
    ensures every_run_answers_by_its_definition { IfSome result (λ n. Served (means (cached (mounting at.now (cached (host (A.FileTree.meaning inside))) (host (B.FileTree.meaning card))))) (P.Policy.allowed policy) (tables settings) (length area.old) (length rows.old) texts.now 0 (take n calls.now) (take n replies.old) (take n replies.new)) }
    ensures other_replies_stay { IfSome result (λ n. drop n replies.new ≡ drop n replies.old) }
    ensures all_stays_where_nothing_is_mounted { result ≡ None → (replies.new ≡ replies.old) × (area.new ≡ area.old) × (rows.new ≡ rows.old) }
    ensures area_as_defined { IfSome result (λ n. area.new ≡ memory_then (length area.old) (length rows.old) texts.now 0 (take n calls.now) (take n replies.old) area.old) }
    ensures rows_as_defined { IfSome result (λ n. rows.new ≡ memory_then (length area.old) (length rows.old) texts.now blank_call (take n calls.now) (take n replies.old) rows.old) }
    ensures laws_hold_over_every_pile { (p : Pile) → WellPiled p → LawsOver (means p) }
{
    let host = pile_up(inside, card, at).ok()?;
    let mut resolver = Resolver::new(settings, host, policy);
    Some(resolver.serve(texts, calls, area, rows, replies))
}
