// The limits of the layers and of a policy.
use cache::Cache;
use listing::Listing;
use mount::Mount;
use std::test::Fail;
use tree::{EndingRefusal, Endings, FileTree, Policy};

#[test]
fn a_mount_has_2_to_16_bytes(rt: HostRuntime) {
    assert!(rt; Mount::new(Listing::new(), Listing::new(), b"/m").is_ok());
    assert!(rt; Mount::new(Listing::new(), Listing::new(), b"/").is_err());
    assert!(rt; Mount::new(Listing::new(), Listing::new(), b"/a/bcdefghijklmn").is_ok());
    assert!(rt; Mount::new(Listing::new(), Listing::new(), b"/a/bcdefghijklmno").is_err());
}

#[test]
fn the_65th_path_puts_the_first_out(rt: HostRuntime) -> Result<(), Fail> {
    let mut cache = Cache::new(Listing::new());
    for byte in b'0'..b'p' {
        let _ = cache.kind(&[b'/', byte]);
    }
    assert!(rt; cache.holds(b"/0"));
    let _ = cache.kind(b"/p");
    assert!(rt; !cache.holds(b"/0"));
    assert!(rt; cache.holds(b"/1"));
    Ok(())
}

#[test]
fn a_policy_takes_four_endings_of_up_to_16_bytes(rt: HostRuntime) -> Result<(), Fail> {
    let mut endings = Endings::new();
    assert!(rt; !endings.allows(b"/lib/a.js"));
    for _ in 0..3u8 {
        endings.add(b".js")?;
    }
    assert!(rt; endings.add(b".abcdefghijklmnop") == Err(EndingRefusal::TooLong));
    endings.add(b".abcdefghijklmno")?;
    assert!(rt; endings.add(b"") == Err(EndingRefusal::Full));
    assert!(rt; endings.add(b".abcdefghijklmnop") == Err(EndingRefusal::TooLong));
    assert!(rt; endings.allows(b"/lib/a.js") && !endings.allows(b"/lib/a.json"));
    Ok(())
}
