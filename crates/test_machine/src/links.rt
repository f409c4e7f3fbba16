//! The link checker of lol_examples: no contract says that its count is that of the links to other hosts.

use lol_examples::{LinkTag, Refused, count_links_away};
use lol_vm::{Attributes, SharedMemoryLimiter};
use std::alloc::{AllocError, Global};
use std::process::Abort;
use std::test::Fail;
use test_kit::written_attributes;

/// How many links of a page lead to other hosts, with so many bytes at most.
fn links_away<'p>(
    alloc: Global,
    near: &'p Attributes,
    far: &'p Attributes,
    bare: &'p Attributes,
    max: usize,
) -> Result<u64, Refused> {
    let page = [
        LinkTag::Start {
            name: b"nav",
            attributes: far,
        },
        LinkTag::Start {
            name: b"a",
            attributes: near,
        },
        LinkTag::End { name: b"a" },
        LinkTag::Start {
            name: b"A",
            attributes: far,
        },
        LinkTag::End { name: b"nav" },
        LinkTag::Start {
            name: b"link",
            attributes: bare,
        },
    ];
    let mut limiter = SharedMemoryLimiter::new(max);
    count_links_away(alloc, &page, &mut limiter)
}

/// Whether two links of the page lead to other hosts, for which it takes 512 bytes.
fn counts_two(alloc: Global) -> Result<bool, AllocError> {
    let near = written_attributes(alloc, &[("href", Some("/away?to=http:"))])?;
    let far = written_attributes(alloc, &[("rel", None), ("href", Some("HTTPS://b.example"))])?;
    let bare = written_attributes(alloc, &[("href", Some("//c.example/x.css"))])?;
    Ok(
        links_away(alloc, &near, &far, &bare, 512) == Ok(2)
            && links_away(alloc, &near, &far, &bare, 511) == Err(Refused),
    )
}

#[test]
fn counts_links_to_other_hosts(rt: HostRuntime) -> Result<(), Fail> {
    assert!(rt; counts_two(rt.alloc())?);
    Ok(())
}
