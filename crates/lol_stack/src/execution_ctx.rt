//! What a start tag gathers.

ghost use Rattle.std.specs.Prelude.{◌≡◌, OnOk, OnErr, IfOk, IsOk, IsNone, true};
ghost use Rattle.lol_memory.specs.Ids.{ascending};
ghost use Rattle.lol_stack.specs.Calls.{IsCalledAtEach, reports};
ghost use Rattle.lol_stack.specs.Contexts.{with_branch, IsNewItem, NeedsNoMemory};

use crate::element_data::ElementData;
use crate::stack_item::{StackItem, StackItemOf};
use lol_base::{LocalName, Namespace};
use lol_instructions::ExecutionBranch;
use lol_memory::{DenseHashSet, MatchInfo};
use std::alloc::{AllocError, Global};

/// What is known of a start tag, and what has been gathered for its element so far (lol_html's `ExecutionCtx`).
#[derive(Drop)]
pub struct ExecutionCtx<'i, E> {
    pub stack_item: StackItem<'i, E>,
    /// Whether the element has content: ranges are gathered only then.
    pub with_content: bool,
    pub ns: Namespace,
    pub enable_esi_tags: bool,
}

impl<'i, E: ElementData> ExecutionCtx<'i, E> {
    /// A tag for which nothing has been gathered, of an element that has content until more is known. It takes no memory.
    pub fn new(
        alloc: Global,
        local_name: LocalName<'i>,
        ns: Namespace,
        enable_esi_tags: bool,
    ) -> Self
        ensures item { IsNewItem E.ids local_name.entry result.stack_item }
        ensures with_content { result.with_content ≡ true }
        ensures ns { result.ns ≡ ns }
        ensures enable_esi_tags { result.enable_esi_tags ≡ enable_esi_tags }
    {
        ExecutionCtx {
            stack_item: StackItemOf::new(alloc, local_name),
            with_content: true,
            ns,
            enable_esi_tags,
        }
    }

    /// Adds what an instruction gives: its ids and, where the element has content, those of its two ranges that are there. It is
    /// refused only where memory is out, and then nothing has changed. Ids below 32 take no memory where there is no content, or no range.
    pub fn add_execution_branch(
        &mut self,
        alloc: Global,
        branch: &ExecutionBranch,
    ) -> Result<(), AllocError>
        ensures ok { OnOk result (self.new ≡ with_branch E.ids E.with_ids self.old branch.now) }
        ensures content { self.new.with_content ≡ self.old.with_content }
        ensures no_memory { NeedsNoMemory self.old.with_content branch.now → IsOk result }
        ensures err { OnErr result (self.new ≡ self.old) }
    {
        let item = &mut self.stack_item;
        if self.with_content {
            item.jumps.extend(alloc, &branch.jumps)?;
            if let Err(error) = item
                .hereditary_jumps
                .extend(alloc, &branch.hereditary_jumps)
            {
                item.jumps.shrink(&branch.jumps);
                return Err(error);
            }
        }
        if let Err(error) = item
            .element_data
            .matched_ids_mut()
            .union(&branch.matched_ids)
        {
            if self.with_content {
                item.jumps.shrink(&branch.jumps);
                item.hereditary_jumps.shrink(&branch.hereditary_jumps);
            }
            return Err(error);
        }
        Ok(())
    }

    /// Calls the handler with each id that was gathered, in ascending order. It takes no memory.
    #[inline(always)]
    pub fn handle_matched_ids<F: FnMut(MatchInfo)>(&mut self, handler: &mut F)
        requires { F.IsAlwaysCallable handler.old }
        ensures again { F.IsAlwaysCallable handler.new }
        ensures called { IsCalledAtEach F.step handler.old
            (reports self.old.with_content (ascending (E.ids self.old.stack_item.element_data))) handler.new }
        ensures same { self.new ≡ self.old }
    {
        let with_content = self.with_content;
        let item = &mut self.stack_item;
        report_ids(item.element_data.matched_ids_mut(), with_content, handler);
    }
}

impl<'i, E: Drop> ExecutionCtx<'i, E> {
    /// The same, whose name borrows nothing. A name that is a hash takes no memory.
    pub fn into_owned(self, alloc: Global) -> Result<ExecutionCtx<'static, E>, AllocError>
        ensures same { IfOk result (λ ctx. ctx ≡ self.entry) }
        ensures no_memory { IsNone self.entry.stack_item.local_name.spelling → IsOk result }
    {
        let ExecutionCtx {
            stack_item,
            with_content,
            ns,
            enable_esi_tags,
        } = self;
        Ok(ExecutionCtx {
            stack_item: stack_item.into_owned(alloc)?,
            with_content,
            ns,
            enable_esi_tags,
        })
    }
}

fn report_ids<F: FnMut(MatchInfo)>(ids: &DenseHashSet, with_content: bool, handler: &mut F)
    requires { F.IsAlwaysCallable handler.old }
    ensures again { F.IsAlwaysCallable handler.new }
    ensures called { IsCalledAtEach F.step handler.old (reports with_content (ascending ids.now)) handler.new }
{
    for match_id in ids.iter() {
        handler(MatchInfo {
            match_id,
            with_content,
        });
    }
}
