// How firmware calls a resolver.
ghost use Rattle.std.specs.Prelude.{◌==◌, None, cond, length};
ghost use Rattle.std.proofs.Common.{rules};
ghost use Rattle.tree.specs.Meanings.{missing, unnoted};
ghost use Rattle.tree.specs.declared.answers.Kind.TheVariants.{Nothing};

use cache::Cache;
use listing::Listing;
use lookup::{Found, MIN_AREA, MIN_ROWS, OpenCall, Refused, ResolveError};
use resolver::{Answered, Call, Reply, Resolver, serve_piled};
use settings::Settings;
use std::test::Fail;
use texts::{Place, count_parts};
use tree::{Broken, FileTree, Host, Kind, Manifest, PartCount, Way};

const MAX_LEN: usize = 255;

const ANY_DEPTH: PartCount = PartCount { max: 255 };

fn with_extension() -> Result<Settings, Fail> {
    let mut settings = Settings::new();
    settings.add_extension(b".js")?;
    Ok(settings)
}

fn with_file(path: &[u8]) -> Result<Listing, Fail> {
    let mut listing = Listing::new();
    listing.add(1, path, b"")?;
    Ok(listing)
}

#[test]
fn requests_are_resolved(rt: HostRuntime) -> Result<(), Fail> {
    let host = Cache::new(with_file(b"/lib/a.js")?);
    let mut resolver = Resolver::new(with_extension()?, host, ANY_DEPTH);
    let mut area = [7; MIN_AREA];
    let mut rows = [OpenCall::blank(); MIN_ROWS];
    let mut first = [b'.'; MAX_LEN];
    let mut second = [b'.'; MAX_LEN];
    let mut third = [b'.'; MAX_LEN];

    // A buffer of 254 bytes is too short: the call is refused, and changes nothing.
    let answer = resolver.resolve(
        b"/lib",
        b"./a",
        &mut area,
        &mut rows,
        &mut first,
        &mut second,
        &mut third[..MAX_LEN - 1],
    );
    let refused = Refused {
        error: ResolveError::NoMemory,
        first: None,
        second: None,
    };
    assert!(rt; answer.outcome == Err(refused) && answer.rounds == 0);
    assert!(rt; area == [7; MIN_AREA]);
    assert!(rt; first == [b'.'; MAX_LEN]);

    // A path is found.
    let answer = resolver.resolve(
        b"/lib",
        b"./a?q",
        &mut area,
        &mut rows,
        &mut first,
        &mut second,
        &mut third,
    );
    let found = Found {
        path: 9,
        query: Some(2),
        fragment: None,
    };
    assert!(rt; answer.outcome == Ok(found) && answer.rounds == 1);
    assert!(rt; first.starts_with(b"/lib/a.js.."));
    assert!(rt; second.starts_with(b"?q.."));
    assert!(rt; third == [b'.'; MAX_LEN]);
    assert!(rt; area == [0; MIN_AREA]);

    // Nothing is found: the request stands in the first buffer, before what the path left.
    let answer = resolver.resolve(
        b"/lib",
        b"./b",
        &mut area,
        &mut rows,
        &mut first,
        &mut second,
        &mut third,
    );
    let refused = Refused {
        error: ResolveError::NotFound,
        first: Some(3),
        second: None,
    };
    assert!(rt; answer.outcome == Err(refused) && answer.rounds == 1);
    assert!(rt; first.starts_with(b"./bb/a.js.."));
    assert!(rt; resolver.tally() == 1);
    Ok(())
}

// A host of firmware's own: every path is of one kind.
#[derive(Drop)]
struct Uniform {
    kind: Kind,
}

impl FileTree for Uniform {
    ghost meaning = { λ s. record { kind = λ path. cond (length path == 0) Nothing s.kind; manifest = λ _. unnoted; lookup = λ _ _ _. missing } };

    ghost sound = { λ _. Unit {0} };

    ghost steps = { λ _ _ _. Unit {0} };

    ghost proper = { Prim.search rules };

    fn kind(&mut self, path: &[u8]) -> Kind {
        if count_parts(path) == 0 {
            Kind::Nothing
        } else {
            self.kind
        }
    }
}

impl Host for Uniform {
    fn manifest(&mut self, _path: &[u8]) -> Result<Option<Manifest>, Broken> {
        Ok(None)
    }

    fn main_text(&self, _path: &[u8], _i: usize) -> Option<&[u8]> {
        None
    }

    fn lookup(
        &mut self,
        _way: Way,
        _request: &[u8],
        _directory: &[u8],
        _out: &mut [u8],
    ) -> Result<Option<usize>, Broken> {
        Ok(None)
    }

    fn forget(&mut self) {}
}

// Directories and requests stand in one text.
const TEXTS: &[u8] = b"/lib./a/card./b";

const CALLS: [Call; 4] = [
    Call::Resolve {
        directory: Place { start: 0, len: 4 },
        request: Place { start: 4, len: 3 },
    },
    Call::Forget,
    Call::Resolve {
        directory: Place { start: 7, len: 5 },
        request: Place { start: 12, len: 3 },
    },
    Call::Tally,
];

#[test]
fn a_list_is_served_over_a_pile(rt: HostRuntime) -> Result<(), Fail> {
    let inside = Uniform {
        kind: Kind::Nothing,
    };
    let card = Uniform { kind: Kind::File };
    let mut area = vec![in rt.alloc(); 0; MIN_AREA]?;
    let mut rows = vec![in rt.alloc(); OpenCall::blank(); MIN_ROWS]?;
    let mut replies = [Reply::blank(); 5];
    let served = serve_piled(
        with_extension()?,
        inside,
        card,
        b"/card",
        ANY_DEPTH,
        TEXTS,
        &CALLS,
        &mut area,
        &mut rows,
        &mut replies,
    );
    assert!(rt; served == Some(4));
    assert!(rt; replies[0].first.starts_with(b"./a\0"));
    assert!(rt; replies[1].answered == Answered::Forgotten);
    assert!(rt; replies[2].first.starts_with(b"/card/b\0"));
    assert!(rt; replies[3].answered == Answered::Counted(1));
    assert!(rt; replies[4].answered == Answered::Unserved);
    Ok(())
}
