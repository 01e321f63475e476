// The examples of docs/REQUESTS.md, and the limits of directories and requests.
use specifier::{Branch, Specifier, SpecifierError, is_directory, is_request, write_sought_path};
use std::test::Fail;
use texts::{Place, same_bytes};

// What stands at `place`, or nothing.
fn piece(place: Option<Place>, request: &[u8]) -> &[u8] {
    match place {
        Some(place) => place.of(request),
        None => b"",
    }
}

#[test]
fn requests_are_read(rt: HostRuntime) {
    let requests = [
        (
            b"./a".as_slice(),
            b"./a".as_slice(),
            b"".as_slice(),
            b"".as_slice(),
        ),
        (b"./a?q#f", b"./a", b"?q", b"#f"),
        (b"./a#f", b"./a", b"", b"#f"),
        (b"#a", b"#a", b"", b""),
        (b"##", b"#", b"", b"#"),
        (b"/#x", b"/", b"", b"#x"),
        (b".?x", b".", b"?x", b""),
        (b"a?b?c#d?e", b"a", b"?b?c", b"#d?e"),
        (b"a?b\0#c", b"a", b"?b\0#c", b""),
    ];
    for (request, path, query, fragment) in requests {
        let read = match Specifier::parse(request) {
            Ok(read) => {
                same_bytes(read.path.of(request), path)
                    && same_bytes(piece(read.query, request), query)
                    && same_bytes(piece(read.fragment, request), fragment)
            }
            Err(_) => false,
        };
        assert!(rt; read);
    }
}

#[test]
fn an_empty_path_is_refused(rt: HostRuntime) {
    assert!(rt;
        Specifier::parse(b"").is_err()
            && Specifier::parse(b"?q").is_err()
            && SpecifierError::Empty.number() == 21
    );
}

#[test]
fn escapes_leave_the_path(rt: HostRuntime) -> Result<(), Fail> {
    let request = b"a\0#b?c\0#d";
    let mut out = [b'-'; 4];
    let mut short = [b'-'; 2];
    match Specifier::parse(request) {
        Ok(read) => {
            let len = read.write_path(request, &mut out);
            let refused = read.write_path(request, &mut short);
            assert!(rt; len == Some(3) && out == *b"a#b-" && refused == None && short == *b"--");
            Ok(())
        }
        Err(_) => Err(Fail::new("refused")),
    }
}

#[test]
fn ways_go_by_the_first_part(rt: HostRuntime) {
    let ways = [
        (b"/x".as_slice(), Branch::Absolute),
        (b"./x", Branch::Relative),
        (b".", Branch::Relative),
        (b"..", Branch::Relative),
        (b".a", Branch::Package),
        (b"..a", Branch::Package),
        (b"#a", Branch::Hash),
        (b"a", Branch::Package),
        (b"", Branch::Package),
    ];
    for (path, way) in ways {
        assert!(rt; Branch::of(path) == way);
    }
}

#[test]
fn paths_that_are_sought(rt: HostRuntime) {
    let sought = [
        (b"./a".as_slice(), b"/lib/a".as_slice()),
        (b"..", b"/"),
        (b"/lib/./a//", b"/lib/./a"),
        (b"/", b""),
        (b"a", b""),
        (b"#a", b""),
    ];
    for (path, expected) in sought {
        let mut out = [0; 255];
        let len = write_sought_path(b"/lib", path, &mut out).unwrap_or(0);
        assert!(rt; same_bytes(Place { start: 0, len }.of(&out), expected));
    }
}

#[test]
fn directories_have_80_bytes_and_requests_96(rt: HostRuntime) {
    let mut long = [b'a'; 81];
    long[0] = b'/';
    assert!(rt; is_directory(&long[0..80]) && !is_directory(&long));
    assert!(rt;
        is_request(&[127; 96]) && !is_request(&[b'a'; 97]) && !is_request(&[128]) && is_request(b"")
    );
    assert!(rt;
        is_directory(b"/")
            && !is_directory(b"lib")
            && !is_directory(b"/lib/")
            && !is_directory(b"/\x80")
    );
}
