// A box with a card: the pile that the firmware builds.
ghost use Rattle.std.specs.Prelude.{◌≡◌, is_ok, IfOk, MatchResult};
ghost use Rattle.texts.specs.Held.{bytes_of};
ghost use Rattle.tree.specs.Meanings.{Proper};
ghost use Rattle.cache.specs.Held.{Agrees, held};
ghost use Rattle.mount.specs.Mounts.{mountable, mounted};
ghost use Rattle.piles.specs.Piles.{Pile, WellPiled, cached, host, means, mounting};

use cache::Cache;
use mount::Mount;
use tree::{FileTree, Host};

/// A cache over a mount of a cache over one host and of another host.
pub type Boxed<A, B> = Cache<Mount<Cache<A>, B>>;

/// The pile of a box's host and a card's host at `at`; with a path that nothing can be mounted at both are handed back.
pub fn pile_up<A: Host, B: Host>(inside: A, card: B, at: &[u8]) -> Result<Boxed<A, B>, (A, B)>
    requires inside_is_sound { A.FileTree.sound inside }
    requires card_is_sound { B.FileTree.sound card }
    ensures mounted_at_a_clean_short_path { is_ok result ≡ mountable at.now }
    ensures means_what_the_pile_means { MatchResult result (λ c. mounted (bytes_of c.below.at) (A.FileTree.meaning c.below.first.below) (B.FileTree.meaning c.below.second) ≡ means (cached (mounting at.now (cached (host (A.FileTree.meaning inside))) (host (B.FileTree.meaning card))))) (λ back. (back.0 ≡ inside) × (back.1 ≡ card)) }
    ensures hosts_and_path_as_given { IfOk result (λ c. (c.below.first.below ≡ inside) × (c.below.second ≡ card) × (bytes_of c.below.at ≡ at.now)) }
    ensures sound_as_a_layer { IfOk result (λ c. ((A.FileTree.sound c.below.first.below × Agrees (A.FileTree.meaning c.below.first.below).kind (held c.below.first.recent)) × B.FileTree.sound c.below.second) × Agrees (mounted (bytes_of c.below.at) (A.FileTree.meaning c.below.first.below) (B.FileTree.meaning c.below.second)).kind (held c.recent)) }
    ensures every_pile_is_proper { (p : Pile) → WellPiled p → Proper (means p) }
{
    match Mount::new(Cache::new(inside), card, at) {
        Ok(both) => Ok(Cache::new(both)),
        Err((first, second)) => Err((first.into_below(), second)),
    }
}
