// The examples of docs/TEXTS.md, and the limits of texts. One loop a table, so that a test is one check.
use paths::{normalize, normalize_with};
use std::test::Fail;
use texts::{
    Place, Text, copy_text, count_parts, is_clean, is_text, path_hash, same_bytes,
    same_hashed_path, same_path, trim_final_slashes,
};

// Whether the first `len` bytes of `out` are `expected`.
fn is_front(out: &[u8], len: Option<usize>, expected: &[u8]) -> bool {
    match len {
        Some(len) => same_bytes(Place { start: 0, len }.of(out), expected),
        None => false,
    }
}

#[test]
fn parts_are_counted(rt: HostRuntime) {
    let counts = [
        (b"".as_slice(), 0),
        (b"/", 1),
        (b".", 1),
        (b"./lib//./a/", 3),
        (b"/./lib/..", 3),
        (b"//lib", 2),
    ];
    for (text, count) in counts {
        assert!(rt; count_parts(text) == count);
    }
}

#[test]
fn paths_are_the_same_by_their_parts(rt: HostRuntime) {
    let pairs = [
        (b"/lib/a.js".as_slice(), b"//lib/./a.js/".as_slice(), true),
        (b"/lib", b"lib", false),
        (b"/lib", b"/lib/a", false),
        (b"./a", b"a", false),
        (b"a/.", b"a", true),
    ];
    for (a, b, same) in pairs {
        assert!(rt; same_path(a, b) == same);
    }
}

#[test]
fn clean_paths(rt: HostRuntime) {
    let paths = [
        (b"/".as_slice(), true),
        (b"/lib/a.js", true),
        (b"/...", true),
        (b"", false),
        (b"lib", false),
        (b"//", false),
        (b"/lib/", false),
        (b"/lib//a", false),
        (b"/lib/.", false),
        (b"/../a", false),
    ];
    for (path, clean) in paths {
        assert!(rt; is_clean(path) == clean);
    }
}

#[test]
fn hashes_of_paths(rt: HostRuntime) {
    let hashes = [
        (b"/".as_slice(), 175),
        (b"/a", 146),
        (b"/lib", 246),
        (b"/Aa", 175),
        (b"/BB", 175),
        (b"", 0),
        (b"lib", 0),
        (b"/lib/", 0),
    ];
    for (path, hash) in hashes {
        assert!(rt; path_hash(path) == hash);
    }
}

#[test]
fn paths_are_the_same_with_their_hashes_as_without(rt: HostRuntime) {
    let pairs = [
        (b"/lib".as_slice(), b"/lib".as_slice(), true),
        (b"/lib", b"//lib/", true),
        (b"/lib", b"/a", false),
        (b"/Aa", b"/BB", false),
        (b"lib", b"/lib", false),
    ];
    for (a, b, same) in pairs {
        let (first, second) = (path_hash(a), path_hash(b));
        for (first, second) in [(first, second), (first, 0), (0, second), (0, 0)] {
            assert!(rt; same_hashed_path(a, first, b, second) == same);
        }
    }
}

#[test]
fn joined_texts(rt: HostRuntime) {
    let joins = [
        (b"/lib".as_slice(), b"./a".as_slice(), b"/lib/a".as_slice()),
        (b"/lib/a", b"../b/./c/", b"/lib/b/c"),
        (b"/", b"../../x", b"/x"),
        (b"/lib", b"/x//y/", b"/x//y/"),
        (b"/lib", b"", b""),
        (b"/a//b/", b"..", b"/a"),
        (b"/a/", b"b", b"/a/b"),
        (b"//a//b/.", b"..", b"//a"),
        (b"a", b"..", b""),
    ];
    for (base, more, path) in joins {
        let mut out = [0; 255];
        let len = normalize_with(base, more, &mut out);
        assert!(rt; is_front(&out, len, path));
    }
}

#[test]
fn normal_texts(rt: HostRuntime) {
    let texts = [
        (b"/foo/.././foo/".as_slice(), b"/foo".as_slice()),
        (b"../dir", b"dir"),
        (b"./a//b", b"a/b"),
        (b"//", b"/"),
        (b"a/..", b""),
    ];
    for (text, path) in texts {
        let mut out = [0; 255];
        let len = normalize(text, &mut out);
        assert!(rt; is_front(&out, len, path));
    }
}

#[test]
fn final_slashes(rt: HostRuntime) {
    for (text, path) in [
        (b"/lib/./a//".as_slice(), b"/lib/./a".as_slice()),
        (b"//", b""),
        (b"/a", b"/a"),
    ] {
        assert!(rt; same_bytes(trim_final_slashes(text), path));
    }
}

#[test]
fn a_text_has_at_most_255_bytes_up_to_127(rt: HostRuntime) {
    assert!(rt; is_text(&[127; 255]) && !is_text(&[127; 256]) && !is_text(&[128]) && is_text(b""));
}

#[test]
fn a_joined_text_past_255_bytes_is_refused(rt: HostRuntime) {
    let mut out = [7; 256];
    assert!(rt; normalize_with(&[b'a'; 253], b"b", &mut out) == Some(255));
    assert!(rt; normalize_with(&[b'a'; 254], b"b/../..", &mut out) == None);
    assert!(rt; normalize(&[b'a'; 256], &mut out) == None);
    assert!(rt; out[253] == b'/' && out[255] == 7);
}

#[test]
fn a_text_of_255_bytes_can_have_128_parts(rt: HostRuntime) {
    assert!(rt;
        count_parts(
            b"a/a/a/a/a/a/a/a/a/a/a/a/a/a/a/a/a/a/a/a/a/a/a/a/a/a/a/a/a/a/a/a/a/a/a/a/a/a/a/a/a/a/a/a/a/a/a/a/a/a/a/a/a/a/a/a/a/a/a/a/a/a/a/a/a/a/a/a/a/a/a/a/a/a/a/a/a/a/a/a/a/a/a/a/a/a/a/a/a/a/a/a/a/a/a/a/a/a/a/a/a/a/a/a/a/a/a/a/a/a/a/a/a/a/a/a/a/a/a/a/a/a/a/a/a/a/a/a",
        ) == 128
    );
}

#[test]
fn a_copied_text_leaves_the_bytes_beyond_it(rt: HostRuntime) {
    let mut out = *b"xxxx";
    let copied = copy_text(b"ab", &mut out);
    let refused = copy_text(b"abcde", &mut out);
    assert!(rt; copied == Some(2) && refused == None && out == *b"abxx");
}

#[test]
fn a_held_text_has_its_bytes(rt: HostRuntime) -> Result<(), Fail> {
    match Text::<4>::new(b"lib/") {
        Some(text) => {
            assert!(rt; same_bytes(text.as_bytes(), b"lib/") && Text::<4>::new(b"12345").is_none());
            Ok(())
        },
        None => Err(Fail::new("refused")),
    }
}
