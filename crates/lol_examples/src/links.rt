//! A link checker, tag by tag: a machine is told of each tag, and released at the end, whatever was answered.

ghost use Rattle.std.specs.Prelude.{◌≡◌};
ghost use Rattle.lol_machine.specs.Vms.{ChargesSlots};

use lol_vm::{
    Ast, Attributes, ElementValue, LocalName, MatchInfo, Namespace, Selector, SelectorError,
    SelectorMatchingVm, SharedMemoryLimiter,
};
use std::alloc::Global;

/// How many bytes an open element is charged for.
const ELEMENT_BYTES: usize = 64;

/// The links that lead to other hosts: their address begins with a scheme, or with a host right away.
const LINKS_AWAY: &str = "a[href^='http:' i], a[href^='https:' i], a[href^='//'], \
    area[href^='http:' i], area[href^='https:' i], area[href^='//'], \
    link[href^='http:' i], link[href^='https:' i], link[href^='//']";

/// A tag of a page.
#[derive(Clone, Copy)]
pub enum LinkTag<'t> {
    Start {
        name: &'t [u8],
        attributes: &'t Attributes,
    },
    End {
        name: &'t [u8],
    },
}

/// A tag was refused: its element can't be charged, its parent has too many children, or memory was refused.
#[derive(Debug, Clone, Copy, PartialEq, Eq)]
pub struct Refused;

/// How many start tags of a page are links to other hosts. Nothing stays charged, whatever is answered.
///
/// # Errors
/// `Refused` where a tag was, or memory.
pub fn count_links_away(
    alloc: Global,
    page: &[LinkTag],
    limiter: &mut SharedMemoryLimiter,
) -> Result<u64, Refused>
    ensures { limiter.new ≡ limiter.old }
{
    let Ok(ast) = links_away(alloc) else {
        return Err(Refused);
    };
    let Ok(mut vm) = SelectorMatchingVm::new(alloc, ast, ELEMENT_BYTES, false) else {
        return Err(Refused);
    };
    let count = count_in_tags(&mut vm, page, limiter);
    vm.release(limiter);
    count
}

fn links_away(alloc: Global) -> Result<Ast, SelectorError> {
    let mut ast = Ast::new(alloc);
    ast.add_selector(&Selector::from_str(alloc, LINKS_AWAY)?, 0)?;
    Ok(ast)
}

/// Goes over the tags of a page.
fn count_in_tags(
    vm: &mut SelectorMatchingVm<ElementValue<()>>,
    page: &[LinkTag],
    limiter: &mut SharedMemoryLimiter,
) -> Result<u64, Refused>
    ensures { ChargesSlots vm.old vm.new limiter.old limiter.new }
{
    let mut count = 0;
    for tag in page {
        tell(vm, tag, limiter, &mut count)?;
    }
    Ok(count)
}

/// Tells the machine of a tag.
fn tell(
    vm: &mut SelectorMatchingVm<ElementValue<()>>,
    tag: &LinkTag,
    limiter: &mut SharedMemoryLimiter,
    count: &mut u64,
) -> Result<(), Refused>
    ensures { ChargesSlots vm.old vm.new limiter.old limiter.new }
{
    match tag {
        LinkTag::Start { name, attributes } => count_start(vm, name, attributes, limiter, count),
        LinkTag::End { name } => {
            vm.exec_for_end_tag(LocalName::new(name), &mut |_element: ElementValue<()>| {});
            Ok(())
        }
    }
}

/// Counts a start tag, if it is one of the links.
fn count_start(
    vm: &mut SelectorMatchingVm<ElementValue<()>>,
    name: &[u8],
    attributes: &Attributes,
    limiter: &mut SharedMemoryLimiter,
    count: &mut u64,
) -> Result<(), Refused>
    ensures { ChargesSlots vm.old vm.new limiter.old limiter.new }
{
    let mut handler = |_info: MatchInfo| {
        *count = count.saturating_add(1);
    };
    let name = LocalName::new(name);
    let rest = attributes.aux_info(false);
    match vm.exec_for_whole_start_tag(name, Namespace::Html, rest, limiter, &mut handler) {
        Ok(_asked) => Ok(()),
        Err(_) => Err(Refused),
    }
}
