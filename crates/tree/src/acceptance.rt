// The test that a path must pass before it is handed out.
ghost use Rattle.std.specs.Prelude.{◌≡◌, map};
ghost use Rattle.texts.specs.Held.{bytes_of};
ghost use Rattle.tree.specs.Acceptances.{acceptable, unrestricted};
ghost use Rattle.tree.specs.Meanings.{kind_of};

use crate::answers::Kind;
use crate::policy::Policy;
use crate::traits::FileTree;
use texts::{MAX_LEN, Text};

// Whether every restriction has exactly the path's bytes.
fn passes_restrictions(restrictions: &[Text<MAX_LEN>], path: &[u8]) -> bool
    ensures same_bytes_as_each_restriction { result ≡ unrestricted (map bytes_of restrictions.now) path.now }
{
    restrictions
        .iter()
        .all(|restriction| path == restriction.as_bytes())
}

// Policy and restrictions belong to two owners, the firmware and the office, so they are two parameters.
/// Whether `path` is acceptable: it is a file, the policy allows it, and every restriction has exactly its bytes. The tree is asked once, and first.
#[tactic(auto, unfolding(crate::specs::Acceptances::acceptable))]
pub fn is_acceptable<T: FileTree, P: Policy>(
    tree: &mut T,
    policy: &P,
    restrictions: &[Text<MAX_LEN>],
    path: &[u8],
) -> bool
    requires sound { T.FileTree.sound tree.old }
    ensures acceptable_by_definition { result ≡ acceptable (T.FileTree.meaning tree.old) (P.Policy.allowed policy.now) (map bytes_of restrictions.now) path.now }
    ensures same_meaning { T.FileTree.meaning tree.new ≡ T.FileTree.meaning tree.old }
    ensures still_sound { T.FileTree.sound tree.new }
    ensures asked_once { T.FileTree.steps tree.old (kind_of path.now) tree.new }
{
    tree.kind(path) == Kind::File && policy.allows(path) && passes_restrictions(restrictions, path)
}
