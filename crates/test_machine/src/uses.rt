//! A caller of a matcher, with a contract of its own: one that the public clauses don't suffice for isn't proved.

ghost use Rattle.std.specs.Prelude.{◌↔◌, ◌<◌, IfOk, IsTrue, length, true};
ghost use Rattle.lol_matcher.specs.Answering.{reported_in};
ghost use Rattle.lol_matcher.specs.Noted.{handed};

use lol_matcher::{Attributes, AuxStartTagInfo, Matcher, MatcherError, Namespace};
use std::alloc::{AllocError, Global};
use std::test::Fail;
use test_kit::written_attributes;

/// Whether a start tag is reported under some id.
pub fn is_reported(
    matcher: &mut Matcher,
    name: &[u8],
    ns: Namespace,
    aux_info: AuxStartTagInfo<'_>,
) -> Result<bool, MatcherError>
    ensures { IfOk result (λ found. IsTrue found ↔ (0 < length
        (reported_in matcher.old.told (handed name.now ns aux_info.entry)))) }
{
    matcher.start_with(name, ns, aux_info)?;
    Ok(!matcher.matches().is_empty())
}

/// Whether a start tag of HTML with these attributes is reported under some id.
fn reports(
    matcher: &mut Matcher,
    name: &str,
    attributes: &Attributes,
) -> Result<bool, MatcherError> {
    is_reported(
        matcher,
        name.as_bytes(),
        Namespace::Html,
        attributes.aux_info(false),
    )
}

fn for_links(alloc: Global) -> Result<Matcher, Fail> {
    let mut builder = Matcher::builder(alloc);
    builder.add(5, "a[href]")?;
    Ok(builder.build()?)
}

/// Whether links alone are reported, and only with `href`.
fn reports_links(alloc: Global, matcher: &mut Matcher) -> Result<bool, AllocError> {
    let without = Attributes::new(alloc);
    let with = written_attributes(alloc, &[("href", None)])?;
    Ok(
        reports(matcher, "a", &without) == Ok(false)
            && reports(matcher, "a", &with) == Ok(true)
            && reports(matcher, "p", &with) == Ok(false),
    )
}

#[test]
fn tells_whether_a_tag_is_reported(rt: HostRuntime) -> Result<(), Fail> {
    let mut matcher = for_links(rt.alloc())?;
    assert!(rt; reports_links(rt.alloc(), &mut matcher)?);
    Ok(())
}
