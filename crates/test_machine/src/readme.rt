//! README's lines: what isn't accepted by the compiler would stay there.

use lol_matcher::{Attributes, MatchInfo, Matcher, Namespace, Started};
use std::alloc::{AllocError, Global};
use std::test::Fail;

fn ids_of(alloc: Global, matches: &[MatchInfo]) -> Result<Vec<u32>, AllocError> {
    let mut ids = Vec::new(alloc);
    for info in matches {
        ids.push(info.match_id)?;
    }
    Ok(ids)
}

#[test]
fn reports_a_link(rt: HostRuntime) -> Result<(), Fail> {
    let alloc = rt.alloc();
    let mut builder = Matcher::builder(alloc);
    builder.add(0, "main a[href^='https:']")?;
    builder.add(1, "img:not([alt])")?;
    let mut matcher: Matcher = builder.build()?;

    let mut attributes = Attributes::new(alloc);
    attributes.push(b"href", Some(b"https://example.org"))?;
    matcher.start(b"main", Namespace::Html)?;
    if matcher.start(b"a", Namespace::Html)? == Started::NeedsAttributes {
        matcher.finish(attributes.aux_info(false))?;
    }
    let ids: Vec<u32> = ids_of(alloc, matcher.matches())?;
    matcher.end(b"a");

    assert!(rt; ids.as_slice() == [0].as_slice());
    Ok(())
}
