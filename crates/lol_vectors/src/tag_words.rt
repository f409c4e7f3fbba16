//! Events of tags as words.

ghost use Rattle.std.specs.Prelude.{All, IfOk};
ghost use Rattle.lol_vm.specs.TagEvents.{HasRangesInside};

use lol_base::Attributes;
use lol_vm::TagEvent;
use std::alloc::{AllocError, Global};
use test_kit::TagWord;

fn event<'e, 't: 'e>(tag: &TagWord<'t>, attributes: &'e Attributes) -> TagEvent<'e>
    ensures { HasRangesInside result }
{
    let name = tag.name.as_bytes();
    if tag.ends {
        return TagEvent::End { name };
    }
    TagEvent::Start {
        name,
        ns: tag.ns,
        aux_info: attributes.aux_info(tag.self_closing),
        finish: tag.finish,
    }
}

/// The tags, with these attributes.
pub(crate) fn events_of<'e, 't: 'e>(
    alloc: Global,
    tags: &[TagWord<'t>],
    attributes: &'e [Attributes],
) -> Result<Vec<TagEvent<'e>>, AllocError>
    ensures { IfOk result (λ events. All HasRangesInside events.items) }
{
    let mut events = Vec::new(alloc);
    for (tag, attributes) in tags.iter().zip(attributes) {
        events.push(event(tag, attributes))?;
    }
    Ok(events)
}
