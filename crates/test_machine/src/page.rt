//! The caller of the crate's page that keeps values, as it is written there: one that isn't accepted by the compiler would stay on the page.

use lol_matcher::{Matcher, Namespace, OpenElement, Started};
use std::process::Abort;
use std::test::Fail;

/// The values of closed elements, the outermost first.
#[derive(Drop)]
struct HandedOut {
    values: Vec<Option<u64>>,
}

impl HandedOut {
    fn keep(&mut self, element: OpenElement<u64>) {
        let OpenElement {
            value,
            number: _,
            matched_ids: _,
        } = element;
        let _ = self.values.push(value);
    }
}

#[test]
fn hands_out_a_value(rt: HostRuntime) -> Result<(), Fail> {
    let builder = Matcher::builder(rt.alloc());
    let mut handed_out = HandedOut {
        values: Vec::new(rt.alloc()),
    };
    let mut matcher = builder.build::<u64>()?;
    assert!(rt; matcher.start(b"div", Namespace::Html) == Ok(Started::Reported));
    assert!(rt; matcher.has_opened() && matcher.replace_value(Some(7)) == None);
    matcher.end_with(b"div", &mut |element| handed_out.keep(element));
    assert!(rt; handed_out.values.as_slice() == [Some(7)].as_slice());
    Ok(())
}
