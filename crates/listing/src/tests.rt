// Examples of listings, and their limits.
use crate::{Listing, Refusal};
use std::test::Fail;
use tree::{Broken, FileTree, Host, Kind, Manifest, Way};

#[test]
fn first_line_decides(rt: HostRuntime) -> Result<(), Fail> {
    let mut listing = Listing::new();
    listing.add(2, b"/a", b"")?;
    listing.add(1, b"/a", b"")?;
    assert_eq!(rt; listing.kind(b"/./a"), Kind::Directory);
    assert_eq!(rt; listing.kind(b"/b"), Kind::Nothing);
    Ok(())
}

#[test]
fn main_texts_follow_their_manifest(rt: HostRuntime) -> Result<(), Fail> {
    let mut listing = Listing::new();
    assert_eq!(rt;
        listing.add(5, b"early", b""),
        Err(Refusal::MainBeforeManifest)
    );
    listing.add(4, b"/a", b"")?;
    listing.add(5, b"m", b"")?;
    listing.add(4, b"/b", b"")?;
    listing.add(1, b"/f", b"")?;
    listing.add(5, b"", b"")?;
    listing.add(5, b"n", b"")?;
    assert_eq!(rt; listing.manifest(b"/a"), Ok(Some(Manifest { mains: 1 })));
    assert_eq!(rt; listing.manifest(b"/b"), Ok(Some(Manifest { mains: 2 })));
    assert_eq!(rt; listing.main_text(b"/b", 1).ok_or("none")?, b"n".as_slice());
    Ok(())
}

#[test]
fn lookups_ignore_the_directory(rt: HostRuntime) -> Result<(), Fail> {
    let mut listing = Listing::new();
    listing.add(9, b"p", b"/a")?;
    listing.add(10, b"h", b"")?;
    let mut out = [0; 4];
    assert_eq!(rt;
        listing.lookup(Way::Package, b"p", b"/x", &mut out),
        Ok(Some(2))
    );
    assert_eq!(rt;
        listing.lookup(Way::Hash, b"h", b"/x", &mut out),
        Err(Broken)
    );
    assert_eq!(rt; listing.lookup(Way::Hash, b"p", b"/x", &mut out), Ok(None));
    assert_eq!(rt; &out, &[47, 97, 0, 0]);
    Ok(())
}

#[test]
fn refusals_in_their_order(rt: HostRuntime) -> Result<(), Fail> {
    let mut listing = Listing::new();
    assert_eq!(rt; listing.add(6, b"", b""), Err(Refusal::Kind));
    assert_eq!(rt; listing.add(1, b"a\n", b""), Err(Refusal::Text));
    assert_eq!(rt; listing.add(1, b"", b""), Err(Refusal::Form));
    for _ in 0..256 {
        listing.add(1, b"/a", b"")?;
    }
    assert_eq!(rt; listing.add(1, b"a", b""), Err(Refusal::Form));
    assert_eq!(rt; listing.add(1, b"/a", b""), Err(Refusal::Full));
    Ok(())
}
