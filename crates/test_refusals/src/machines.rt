//! Start tags of a machine: each request for memory can be refused.

ghost use Rattle.std.specs.Prelude.{◌≡◌};
ghost use Rattle.lol_base.specs.StartTags.{RangesAreInside};
ghost use Rattle.lol_machine.specs.Vms.{slot_bytes};

use crate::element::{Calls, Element, ITEM_BYTES, release};
use crate::outcome::{Met, Stop, expect};
use crate::trees::{attribute, two};
use lol_vm::{
    Ast, Attributes, AuxStartTagInfo, LocalName, MatchInfo, Namespace, PushError,
    SelectorMatchingVm, SharedMemoryLimiter, VmError,
};
use std::alloc::Global;

type Machine = SelectorMatchingVm<Element>;

/// What a machine says of a start tag.
#[derive(Clone, Copy, PartialEq, Eq)]
enum Said {
    Unasked,
    Asked,
    OutOfMemory,
    Failed,
    Else,
}

impl Said {
    /// Whether there was memory for a start tag that has to ask.
    fn had_memory(self) -> Result<bool, Stop> {
        match self {
            Said::Asked => Ok(true),
            Said::OutOfMemory => Ok(false),
            _ => Err(Stop::Wrong),
        }
    }
}

/// Tells a machine of a start tag of HTML and, where it asks, of its attributes.
fn start(
    vm: &mut Machine,
    limiter: &mut SharedMemoryLimiter,
    name: &[u8],
    rest: AuxStartTagInfo<'_>,
    calls: &mut Calls,
) -> Said
    requires { RangesAreInside rest }
    ensures { slot_bytes vm.new ≡ slot_bytes vm.old }
{
    let mut handler = |info: MatchInfo| {
        calls.keep_info(info);
    };
    let name = LocalName::new(name);
    let request = match vm.exec_for_start_tag(name, Namespace::Html, limiter, &mut handler) {
        Ok(()) => return Said::Unasked,
        Err(VmError::InfoRequest(request)) => request,
        Err(VmError::Memory(_)) => return Said::OutOfMemory,
        Err(VmError::Failed) => return Said::Failed,
        Err(_) => return Said::Else,
    };
    match vm.finish_start_tag(request, rest, limiter, &mut handler) {
        Ok(()) => Said::Asked,
        Err(PushError::Memory(_)) => Said::OutOfMemory,
        Err(_) => Said::Else,
    }
}

/// Tells a machine of an end tag: the data that it hands out.
fn end(vm: &mut Machine, name: &[u8]) -> Calls
    ensures { slot_bytes vm.new ≡ slot_bytes vm.old }
{
    let mut calls = Calls::none();
    let mut handler = |element: Element| {
        calls.keep_element(element);
    };
    vm.exec_for_end_tag(LocalName::new(name), &mut handler);
    calls
}

/// Tells a machine of an end tag: whether it hands out so many elements, with these ids.
fn closes(vm: &mut Machine, name: &[u8], count: u32, ids: &[u32]) -> bool
    ensures { slot_bytes vm.new ≡ slot_bytes vm.old }
{
    let closed = end(vm, name);
    closed.count == count && closed.ids() == ids
}

/// The selectors `.a p` under 0 and `p` under 1; the start tags `div` with `class=a` and `p`, each finished where it asks.
pub(crate) fn start_tags(alloc: Global) -> Result<Met, Stop> {
    let class = attribute(alloc, b"class", b"a")?;
    let none = Attributes::new(alloc);
    let ast = two(alloc, ".a p", "p")?;
    tell_new(alloc, ast, class.aux_info(false), none.aux_info(false))
}

/// Tells a new machine of the two start tags, over a limiter with some usage.
fn tell_new(
    alloc: Global,
    ast: Ast,
    class: AuxStartTagInfo<'_>,
    none: AuxStartTagInfo<'_>,
) -> Result<Met, Stop>
    requires class { RangesAreInside class }
    requires none { RangesAreInside none }
{
    let mut limiter = SharedMemoryLimiter::new(1_000_000);
    expect(limiter.increase_usage(100).is_ok())?;
    let mut vm = Machine::new(alloc, ast, ITEM_BYTES, false)?;
    let met = tell_both(&mut vm, &mut limiter, class, none);
    let released = release(vm, &mut limiter, 100);
    expect(released)?;
    met
}

fn tell_both(
    vm: &mut Machine,
    limiter: &mut SharedMemoryLimiter,
    class: AuxStartTagInfo<'_>,
    none: AuxStartTagInfo<'_>,
) -> Result<Met, Stop>
    requires class { RangesAreInside class }
    requires none { RangesAreInside none }
    ensures { slot_bytes vm.new ≡ slot_bytes vm.old }
{
    if tell_div(vm, limiter, class)? {
        tell_second(vm, limiter, none)
    } else {
        stuck(vm, limiter, none, 0, 100)
    }
}

/// Tells a machine of the second start tag, and of the end tag of the first.
fn tell_second(
    vm: &mut Machine,
    limiter: &mut SharedMemoryLimiter,
    none: AuxStartTagInfo<'_>,
) -> Result<Met, Stop>
    requires { RangesAreInside none }
    ensures { slot_bytes vm.new ≡ slot_bytes vm.old }
{
    expect(limiter.current_usage() == 228)?;
    if !tell_p(vm, limiter, none)? {
        return stuck(vm, limiter, none, 1, 228);
    }
    expect(closes(vm, b"div", 2, &[0, 1]))?;
    Ok(Met::Nothing)
}

/// Tells a machine of `div`, which nothing is reported of: whether there was memory.
fn tell_div(
    vm: &mut Machine,
    limiter: &mut SharedMemoryLimiter,
    class: AuxStartTagInfo<'_>,
) -> Result<bool, Stop>
    requires { RangesAreInside class }
    ensures { slot_bytes vm.new ≡ slot_bytes vm.old }
{
    let mut calls = Calls::none();
    let said = start(vm, limiter, b"div", class, &mut calls);
    if calls.count == 0 {
        said.had_memory()
    } else {
        Err(Stop::Wrong)
    }
}

/// Tells a machine of `p`, which both ids are reported of: whether there was memory. If there was none, both are reported or neither.
fn tell_p(
    vm: &mut Machine,
    limiter: &mut SharedMemoryLimiter,
    none: AuxStartTagInfo<'_>,
) -> Result<bool, Stop>
    requires { RangesAreInside none }
    ensures { slot_bytes vm.new ≡ slot_bytes vm.old }
{
    let mut calls = Calls::none();
    let said = start(vm, limiter, b"p", none, &mut calls);
    let is_neither = said == Said::OutOfMemory && calls.count == 0;
    if is_neither || calls.ids() == [0, 1].as_slice() {
        said.had_memory()
    } else {
        Err(Stop::Wrong)
    }
}

/// What stands after a refusal: so many elements are open, the usage is as before, later start tags are answered `Failed`, and end tags
/// act.
fn stuck(
    vm: &mut Machine,
    limiter: &mut SharedMemoryLimiter,
    none: AuxStartTagInfo<'_>,
    open_elements: u32,
    usage: usize,
) -> Result<Met, Stop>
    requires { RangesAreInside none }
    ensures { slot_bytes vm.new ≡ slot_bytes vm.old }
{
    let had_usage = limiter.current_usage() == usage;
    let failed = fail_both(vm, limiter, none);
    expect(had_usage && failed && limiter.current_usage() == usage)?;
    let is_open = has_element(vm);
    expect(is_open == (open_elements > 0) && ends_act(vm, open_elements))?;
    Ok(Met::Refusal)
}

fn has_element(vm: &mut Machine) -> bool
    ensures { slot_bytes vm.new ≡ slot_bytes vm.old }
{
    vm.current_element_data_mut().is_some()
}

/// Whether the start tags of `p` and `br` are answered `Failed`.
fn fail_both(vm: &mut Machine, limiter: &mut SharedMemoryLimiter, none: AuxStartTagInfo<'_>) -> bool
    requires { RangesAreInside none }
    ensures { slot_bytes vm.new ≡ slot_bytes vm.old }
{
    let first = fails(vm, limiter, b"p", none);
    let second = fails(vm, limiter, b"br", none);
    first && second
}

/// Whether the end tags of `p` and `div` close the open elements, which have no ids.
fn ends_act(vm: &mut Machine, open_elements: u32) -> bool
    ensures { slot_bytes vm.new ≡ slot_bytes vm.old }
{
    let first = closes(vm, b"p", 0, &[]);
    let second = closes(vm, b"div", open_elements, &[]);
    let third = closes(vm, b"div", 0, &[]);
    first && second && third
}

/// Whether a start tag is answered `Failed`, and nothing is reported of it.
fn fails(
    vm: &mut Machine,
    limiter: &mut SharedMemoryLimiter,
    name: &[u8],
    none: AuxStartTagInfo<'_>,
) -> bool
    requires { RangesAreInside none }
    ensures { slot_bytes vm.new ≡ slot_bytes vm.old }
{
    let mut calls = Calls::none();
    let said = start(vm, limiter, name, none, &mut calls);
    said == Said::Failed && calls.count == 0
}

/// Two selectors, the first of which a `br` meets, and what a machine of them says of it.
type Void = (&'static str, &'static str, Said);

const VOID: [Void; 2] = [
    ("br:first-child", "p:nth-child(2)", Said::Unasked),
    (".a", "div > .a", Said::Asked),
];

/// A start tag `br` asks for no memory at all, nor does its finishing: a refusal is wrong here once the machine is made.
pub(crate) fn void_tags(alloc: Global) -> Result<Met, Stop> {
    let class = attribute(alloc, b"class", b"a")?;
    tell_void_tags(alloc, class.aux_info(false), &VOID)
}

fn tell_void_tags(alloc: Global, class: AuxStartTagInfo<'_>, rows: &[Void]) -> Result<Met, Stop>
    requires { RangesAreInside class }
{
    for (first, second, said) in rows {
        let ast = two(alloc, first, second)?;
        tell_new_of_void(alloc, ast, class, *said)?;
    }
    Ok(Met::Nothing)
}

/// Tells a new machine of a `br`, over a limiter that allows nothing.
fn tell_new_of_void(
    alloc: Global,
    ast: Ast,
    class: AuxStartTagInfo<'_>,
    said: Said,
) -> Result<(), Stop>
    requires { RangesAreInside class }
{
    let mut limiter = SharedMemoryLimiter::new(0);
    let mut vm = Machine::new(alloc, ast, ITEM_BYTES, false)?;
    let told = tell_void(&mut vm, &mut limiter, class, said);
    let released = release(vm, &mut limiter, 0);
    expect(released)?;
    told
}

fn tell_void(
    vm: &mut Machine,
    limiter: &mut SharedMemoryLimiter,
    class: AuxStartTagInfo<'_>,
    said: Said,
) -> Result<(), Stop>
    requires { RangesAreInside class }
    ensures { slot_bytes vm.new ≡ slot_bytes vm.old }
{
    expect(answers_void(vm, limiter, class, said))?;
    expect(closes(vm, b"br", 0, &[]))
}

/// Whether a machine says so of a `br`, and reports the first id of it, without content.
fn answers_void(
    vm: &mut Machine,
    limiter: &mut SharedMemoryLimiter,
    class: AuxStartTagInfo<'_>,
    wanted: Said,
) -> bool
    requires { RangesAreInside class }
    ensures { slot_bytes vm.new ≡ slot_bytes vm.old }
{
    let mut calls = Calls::none();
    let said = start(vm, limiter, b"br", class, &mut calls);
    said == wanted && calls.ids() == [0].as_slice() && !calls.with_content
}
