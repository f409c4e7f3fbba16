//! Opens an element of a stack.

ghost use Rattle.std.specs.Prelude.{◌↔◌, OnOk, OnErr, IsErrOf};
ghost use Rattle.lol_base.specs.LocalNames.{Name};
ghost use Rattle.lol_memory.specs.LimitedVec.{IsLimited};
ghost use Rattle.lol_stack.specs.Contexts.{IsNewItem};
ghost use Rattle.lol_stack.specs.Stacks.{IsPushed, IsSame, list_in};
ghost use Rattle.lol_stack.specs.declared.stack_item.StackItemOf.{StackItemOf};

use lol_base::LocalName;
use lol_memory::{PushError, SharedMemoryLimiter};
use lol_stack::{ElementData, Stack, StackItemOf};
use std::alloc::Global;

/// Opens an element of this name, whose data say that it is reported under no id.
///
/// # Errors
/// `Limit` exactly if the element can't be charged, and `Memory`: then the stack is as before.
pub fn open<E: ElementData>(
    alloc: Global,
    stack: &mut Stack<E>,
    name: LocalName<'static>,
    limiter: &mut SharedMemoryLimiter,
) -> Result<(), PushError>
    ensures opened { OnOk result ((item : StackItemOf Name E)
        × IsNewItem E.ids name.entry item × IsPushed stack.old item stack.new) }
    ensures limited { IsErrOf result (PushError.Limit (record {})) ↔ IsLimited (list_in stack.old) limiter.old }
    ensures refused { OnErr result (IsSame stack.old stack.new) }
{
    stack.push_item(StackItemOf::new(alloc, name), limiter)
}
