// What a cache holds over a tree with nothing in it that counts its questions.
ghost use Rattle.tree.specs.Meanings.{unnoted, missing};
ghost use Rattle.tree.specs.declared.answers.Kind.TheVariants.{Nothing};
ghost use Rattle.std.proofs.Common.{rules};

use crate::layer::Cache;
use tree::{FileTree, Kind};

#[derive(Drop)]
struct Counting {
    asked: usize,
}

impl FileTree for Counting {
    ghost meaning = { λ _. record { kind = λ _. Nothing; manifest = λ _. unnoted; lookup = λ _ _ _. missing } };

    ghost sound = { λ _. Unit {0} };

    ghost steps = { λ _ _ _. Unit {0} };

    ghost proper = { Prim.search rules };

    fn kind(&mut self, path: &[u8]) -> Kind {
        self.asked = self.asked.wrapping_add(1);
        Kind::Nothing
    }
}

#[test]
fn a_held_path_is_not_asked_below(rt: HostRuntime) {
    let mut cache = Cache::new(Counting { asked: 0 });
    assert!(rt; !cache.holds(b"/a"));
    let _ = cache.kind(b"/a");
    assert!(rt; cache.holds(b"//a/."));
    let _ = cache.kind(b"/a/");
    assert_eq!(rt; cache.into_below().asked, 1);
}

#[test]
fn a_path_of_256_bytes_is_not_held(rt: HostRuntime) {
    let mut cache = Cache::new(Counting { asked: 0 });
    let _ = cache.kind(&[b'/'; 255]);
    let _ = cache.kind(&[b'/'; 256]);
    assert!(rt; cache.holds(b"/"));
    assert!(rt; !cache.holds(&[b'/'; 256]));
    assert_eq!(rt; cache.into_below().asked, 2);
}
