//! The caller of the crate's page that explains, as it is written there: one that isn't accepted by the compiler would stay on the page.

use lol_matcher::{Matcher, Namespace, Numbering, Texts, read_selector};
use std::process::Abort;
use std::test::Fail;

#[test]
fn explains_beside_a_matcher(rt: HostRuntime) -> Result<(), Fail> {
    let alloc = rt.alloc();
    let mut texts = Texts::new(alloc);
    texts.add(7, read_selector(alloc, "main p, main > a")?)?;
    let Numbering { ast, mut explainer } = texts.number_items()?;
    let mut builder = Matcher::builder(alloc);
    builder.ast = ast;
    let mut matcher: Matcher = builder.build()?;
    explainer.index(matcher.machine().program())?;
    let mut ids = matcher.list_for_ids(alloc)?;

    matcher.start(b"main", Namespace::Html)?;
    matcher.start(b"a", Namespace::Html)?;
    let reasons = matcher.explain(alloc, &explainer)?;
    assert!(rt; reasons.len() == 1 && reasons[0].witness.as_slice() == [1, 0].as_slice());
    matcher.report(&explainer, &mut ids);
    assert!(rt; ids.as_slice() == [7].as_slice());
    let mut path: Vec<usize> = Vec::new(alloc);
    for element in matcher.open_elements() {
        path.push(element.number)?;
    }
    assert!(rt; path.as_slice() == [0, 1].as_slice());
    Ok(())
}
