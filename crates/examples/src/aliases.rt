// Labels against the Rust. The rows were made by the Rust's own alias.rs (oxc_resolver 11.24.3), with a recorder in place of its `require`, which keeps the new request and finds nothing.
use alias::{Attempt, Progress, key, key_matches};
use listing::Listing;
use settings::{AliasRow, Settings};
use std::test::Fail;
use texts::{Place, same_bytes};

// A line of the settings.
#[derive(Clone, Copy)]
enum Line<'a> {
    Label(&'a [u8]),
    Value(&'a [u8]),
    Ignore,
}

// What the Rust did: it asked for a new request, ignored a path, or found nothing for a label.
#[derive(Clone, Copy)]
enum Did<'a> {
    Again(&'a [u8]),
    Ignored(&'a [u8]),
    Unmatched(&'a [u8]),
}

// Settings, a file if there is one, a request from `/lib`, and what the Rust did in its order.
#[derive(Clone, Copy)]
struct Sample<'a> {
    lines: &'a [Line<'a>],
    file: &'a [u8],
    request: &'a [u8],
    did: &'a [Did<'a>],
}

fn row<'a>(
    lines: &'a [Line<'a>],
    file: &'a [u8],
    request: &'a [u8],
    did: &'a [Did<'a>],
) -> Sample<'a> {
    Sample {
        lines,
        file,
        request,
        did,
    }
}

// The settings in these lines.
fn settings_of(lines: &[Line]) -> Result<Settings, settings::Refusal> {
    let mut settings = Settings::new();
    for line in lines {
        match line {
            Line::Label(label) => settings.add_alias(label)?,
            Line::Value(value) => settings.add_value(value)?,
            Line::Ignore => settings.add_ignore()?,
        }
    }
    Ok(settings)
}

// A listing of one file, or of nothing.
fn listing_of(file: &[u8]) -> Result<Listing, listing::Refusal> {
    let mut listing = Listing::new();
    if !file.is_empty() {
        listing.add(1, file, b"")?;
    }
    Ok(listing)
}

// Whether an attempt is what the Rust did.
fn is_same(
    attempt: Attempt,
    progress: &Progress,
    aliases: &[AliasRow],
    work: &[u8],
    did: Did,
) -> bool {
    match (attempt, did) {
        (Attempt::Again(new), Did::Again(text)) => {
            same_bytes(new.text(progress.value(aliases), work), text)
        }
        (Attempt::Ignored(len), Did::Ignored(path)) => {
            same_bytes(Place { start: 0, len }.of(work), path)
        }
        (Attempt::Unmatched, Did::Unmatched(label)) => same_bytes(
            key(progress.label(aliases)),
            label,
        ),
        _ => false,
    }
}

// Whether all that the labels make of a row's request is what the Rust did, and no more.
fn does_the_same(row: Sample) -> Result<bool, Fail> {
    let settings = settings_of(row.lines)?;
    let aliases = settings.aliases();
    let mut listing = listing_of(row.file)?;
    let mut work = [0; 255];
    let mut progress = Progress::new();
    for did in row.did {
        let next = progress.next(&mut listing, aliases, b"/lib", row.request, &mut work);
        let same = match next {
            Some(Ok(attempt)) => is_same(attempt, &progress, aliases, &work, *did),
            Some(Err(_)) | None => false,
        };
        if !same {
            return Ok(false);
        }
    }
    let next = progress.next(&mut listing, aliases, b"/lib", row.request, &mut work);
    Ok(next.is_none())
}

#[test]
fn labels_try_what_the_rust_tries(rt: HostRuntime) -> Result<(), Fail> {
    use Did::{Again, Ignored, Unmatched};
    use Line::{Ignore, Label, Value};
    let rows = [
        row(
            &[Label(b"ui"), Value(b"/v")],
            b"",
            b"ui/b",
            &[Again(b"/v/b"), Unmatched(b"ui")],
        ),
        row(
            &[Label(b"ui"), Value(b"/v")],
            b"",
            b"ui",
            &[Again(b"/v"), Unmatched(b"ui")],
        ),
        row(&[Label(b"ui"), Value(b"/v")], b"", b"uix", &[]),
        row(
            &[Label(b"ui"), Value(b"/v")],
            b"",
            b"ui/",
            &[Again(b"/v"), Unmatched(b"ui")],
        ),
        row(
            &[Label(b"ui"), Value(b"/v")],
            b"",
            b"ui\\",
            &[Again(b"/v"), Unmatched(b"ui")],
        ),
        row(
            &[Label(b"ui"), Value(b"/v")],
            b"",
            b"ui\\b",
            &[Again(b"/v/b"), Unmatched(b"ui")],
        ),
        row(
            &[Label(b"ui"), Value(b"/v")],
            b"",
            b"ui/\\/b/",
            &[Again(b"/v/b"), Unmatched(b"ui")],
        ),
        row(
            &[Label(b"ui"), Value(b"/v")],
            b"",
            b"ui/b\\c",
            &[Again(b"/v/b\\c"), Unmatched(b"ui")],
        ),
        row(
            &[Label(b"ui"), Value(b"/v/")],
            b"",
            b"ui/",
            &[Again(b"/v/"), Unmatched(b"ui")],
        ),
        row(
            &[Label(b"ui"), Value(b"/v")],
            b"",
            b"ui/../b",
            &[Again(b"/b"), Unmatched(b"ui")],
        ),
        row(
            &[Label(b"ui"), Value(b"/v")],
            b"",
            b"ui//b//./c/",
            &[Again(b"/v/b/c"), Unmatched(b"ui")],
        ),
        row(
            &[Label(b"ui"), Value(b"./v")],
            b"",
            b"ui/b",
            &[Again(b"v/b"), Unmatched(b"ui")],
        ),
        row(
            &[Label(b"ui"), Value(b"../v")],
            b"",
            b"ui/b",
            &[Again(b"v/b"), Unmatched(b"ui")],
        ),
        row(
            &[Label(b"ui"), Value(b".")],
            b"",
            b"ui/.",
            &[Again(b""), Unmatched(b"ui")],
        ),
        row(
            &[Label(b"ui"), Value(b"/*")],
            b"",
            b"ui/b",
            &[Again(b"/*/b"), Unmatched(b"ui")],
        ),
        row(
            &[Label(b"a/"), Value(b"/v")],
            b"",
            b"a//b",
            &[Again(b"/v/b"), Unmatched(b"a/")],
        ),
        row(
            &[Label(b"ui$"), Value(b"/v")],
            b"",
            b"ui",
            &[Again(b"/v"), Unmatched(b"ui")],
        ),
        row(&[Label(b"ui$"), Value(b"/v")], b"", b"ui/b", &[]),
        row(
            &[Label(b"u*$"), Value(b"/v/*")],
            b"",
            b"u*",
            &[Again(b"/v/*"), Unmatched(b"u*")],
        ),
        row(
            &[Label(b"@/*"), Value(b"/v/*")],
            b"",
            b"@/b/c",
            &[Again(b"/v/b/c"), Unmatched(b"@/*")],
        ),
        row(
            &[Label(b"@/*"), Value(b"/v/*/*")],
            b"",
            b"@/b",
            &[Again(b"/v/b/*"), Unmatched(b"@/*")],
        ),
        row(
            &[Label(b"@/*"), Value(b"/v")],
            b"",
            b"@/b",
            &[Again(b"/v"), Unmatched(b"@/*")],
        ),
        row(
            &[Label(b"*.js"), Value(b"*.ts")],
            b"",
            b"./a.js",
            &[Again(b"./a.ts"), Unmatched(b"*.js")],
        ),
        row(
            &[Label(b"a*a"), Value(b"/v/*")],
            b"",
            b"aa",
            &[Again(b"/v/"), Unmatched(b"a*a")],
        ),
        row(&[Label(b"a*a"), Value(b"/v/*")], b"", b"a", &[]),
        row(
            &[Label(b"a*a"), Value(b"/v/*")],
            b"",
            b"a/a",
            &[Again(b"/v//"), Unmatched(b"a*a")],
        ),
        row(
            &[Label(b"a*b*"), Value(b"/v/*")],
            b"",
            b"axb*",
            &[Again(b"/v/x"), Unmatched(b"a*b*")],
        ),
        row(&[Label(b"ui"), Value(b"ui")], b"", b"ui", &[]),
        row(&[Label(b"ui"), Value(b"ui/x")], b"", b"ui/x/y", &[]),
        row(
            &[Label(b"ui"), Value(b"ui")],
            b"",
            b"ui\\b",
            &[Again(b"ui/b"), Unmatched(b"ui")],
        ),
        row(&[Label(b"*"), Value(b"b")], b"", b"b/a", &[]),
        row(
            &[Label(b"ui"), Value(b"ui"), Value(b"/w")],
            b"",
            b"ui/b",
            &[Again(b"/w/b"), Unmatched(b"ui")],
        ),
        row(&[Label(b"ui"), Value(b"/f")], b"/f", b"ui/b", &[]),
        row(
            &[Label(b"ui"), Value(b"/f")],
            b"/f",
            b"ui",
            &[Again(b"/f"), Unmatched(b"ui")],
        ),
        row(
            &[Label(b"ui"), Value(b"/f"), Value(b"/v")],
            b"/f",
            b"ui/b",
            &[Again(b"/v/b"), Unmatched(b"ui")],
        ),
        row(
            &[Label(b"@*"), Value(b"/f")],
            b"/f",
            b"@b",
            &[Again(b"/f"), Unmatched(b"@*")],
        ),
        row(
            &[
                Label(b"ui"),
                Value(b"/v"),
                Value(b"/w"),
                Value(b"/x"),
                Value(b"/y"),
            ],
            b"",
            b"ui/b",
            &[
                Again(b"/v/b"),
                Again(b"/w/b"),
                Again(b"/x/b"),
                Again(b"/y/b"),
                Unmatched(b"ui"),
            ],
        ),
        row(
            &[Label(b"one"), Value(b"two"), Label(b"two"), Value(b"one")],
            b"",
            b"one",
            &[Again(b"two"), Unmatched(b"one")],
        ),
        row(
            &[Label(b"ui"), Value(b"ui"), Label(b"u*"), Value(b"/v/*")],
            b"",
            b"ui",
            &[Again(b"/v/i"), Unmatched(b"u*")],
        ),
        row(
            &[Label(b"ui"), Value(b"/v"), Label(b"ui"), Value(b"/w")],
            b"",
            b"ui/b",
            &[Again(b"/v/b"), Unmatched(b"ui")],
        ),
        row(
            &[Label(b"ui"), Ignore],
            b"",
            b"ui/b",
            &[Ignored(b"/lib/ui")],
        ),
        row(
            &[Label(b"ui"), Value(b"/v"), Ignore, Value(b"/w")],
            b"",
            b"ui\\b",
            &[Again(b"/v/b"), Ignored(b"/lib/ui")],
        ),
        row(
            &[Label(b"ui"), Value(b"ui"), Ignore],
            b"",
            b"ui",
            &[Ignored(b"/lib/ui")],
        ),
        row(
            &[Label(b"@ui*"), Ignore],
            b"",
            b"@x",
            &[Ignored(b"/lib/@ui*")],
        ),
        row(
            &[Label(b"//x/.."), Ignore],
            b"",
            b"//x/..",
            &[Ignored(b"//x/..")],
        ),
        row(
            &[Label(b"ui/./b/"), Ignore],
            b"",
            b"ui/./b/",
            &[Ignored(b"/lib/ui/b")],
        ),
    ];
    let mut i = 0u8;
    for row in rows {
        assert!(rt; does_the_same(row)?, "row {i}");
        i = i.wrapping_add(1);
    }
    Ok(())
}

#[test]
fn labels_touch_what_the_rust_touches(rt: HostRuntime) {
    let rows = [
        (b"policy".as_slice(), b"policy".as_slice(), true),
        (b"policy", b"policy/late", true),
        (b"policy", b"policy\\late", true),
        (b"policy", b"policy.js", false),
        (b"print", b"printer", false),
        (b"ui", b"u", false),
        (b"ui", b"/ui", false),
        (b"ui/", b"ui/", true),
        (b"ui/", b"ui/b", false),
        (b"ui/", b"ui//b", true),
        (b"/", b"/", true),
        (b"/", b"/b", false),
        (b"/", b"//b", true),
        (b"ui$", b"ui", true),
        (b"ui$", b"ui/", false),
        (b"ui$", b"ui/b", false),
        (b"ui$", b"ui$", false),
        (b"u$i", b"u$i/b", true),
        (b"u*$", b"u*", true),
        (b"u*$", b"ub", false),
        (b"ui$$", b"ui$", true),
        (b"$", b"$", false),
        (b"$", b"ui", false),
        (b"*", b"x", true),
        (b"*", b"/", true),
        (b"@*", b"@x", true),
        (b"@*", b"@", true),
        (b"@*", b"x", false),
        (b"@ui/*", b"@x", true),
        (b"a*b", b"ac", true),
        (b"*$", b"*", true),
        (b"*$", b"x", false),
        (b"\\", b"\\", true),
        (b"\\", b"\\\\a", true),
        (b"\\", b"\\a", false),
    ];
    for (label, request, touched) in rows {
        assert!(rt; key_matches(label, request) == touched);
    }
}
