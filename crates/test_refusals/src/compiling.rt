//! Programs and machines of selectors: each request for memory can be refused.

ghost use Rattle.std.specs.Prelude.{◌≡◌};

use crate::element::{Element, ITEM_BYTES, release};
use crate::outcome::{Stop, exactly};
use crate::trees::two;
use lol_program::{Compiler, Program};
use lol_vm::{SelectorMatchingVm, SharedMemoryLimiter};
use std::alloc::Global;

/// Whether a program is that of `div p` and `div > p`: `div`, then the `p` of its children, then the `p` of its descendants.
fn is_of_div_p(program: &Program) -> bool {
    let [div, child, descendant] = program.instructions.as_slice() else {
        return false;
    };
    program.entry_points == (0..1)
        && !program.enable_nth_of_type
        && div.associated_branch.jumps == Some(1..2)
        && div.associated_branch.hereditary_jumps == Some(2..3)
        && child.associated_branch.matched_ids.iter().eq([1])
        && descendant.associated_branch.matched_ids.iter().eq([0])
}

/// Compiles two selectors: whether there was memory.
pub(crate) fn compile(alloc: Global) -> Result<bool, Stop> {
    let ast = two(alloc, "div p", "div > p")?;
    match Compiler::new(alloc).compile(ast) {
        Ok(program) => exactly(is_of_div_p(&program)),
        Err(_) => Ok(false),
    }
}

/// Makes a machine: whether there was memory. A machine that was made has charged nothing, and opened nothing.
pub(crate) fn new_machine(alloc: Global) -> Result<bool, Stop> {
    let mut limiter = SharedMemoryLimiter::new(1_000_000);
    let ast = two(alloc, "div p", "div > p:nth-of-type(2)")?;
    match SelectorMatchingVm::<Element>::new(alloc, ast, ITEM_BYTES, false) {
        Ok(vm) => {
            let slots = vm.charged_slots();
            let released = release(vm, &mut limiter, 0);
            exactly(released && slots == 0)
        }
        Err(_) => Ok(false),
    }
}
