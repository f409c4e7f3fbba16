//! Start tags that are answered with their reasons.

ghost use Rattle.std.specs.Prelude.{◌≡◌, ◌++◌, false, IfOk, OnOk, map};
ghost use Rattle.lol_matcher.specs.Explaining.{AreNumbered, reasons_told};
ghost use Rattle.lol_reasons.specs.Explanations.{added_by};
ghost use Rattle.lol_reasons.specs.Numbered.{HoldsItems, reason_shown};
ghost use Rattle.lol_script.specs.Explaining.{Explains, explained_text, lines_by};
ghost use Rattle.lol_script.specs.Output.{lines_of};
ghost use Rattle.lol_script.specs.Scripts as scripts;
ghost use Rattle.lol_script.specs.Scripts.{texts_in};
ghost use Rattle.lol_script.specs.SelectLines.{KeepsLines};

use crate::output::{push_ids, push_reason, push_start_end};
use crate::select_lines::SelectLines;
use lol_matcher::{Explainer, MatchId, Matcher, Reason, Tries};
use std::alloc::{AllocError, Global};

/// What explains the reports of a matcher in which each item of the selectors has an id of its own.
#[derive(Drop)]
pub struct Explained {
    explainer: Explainer,
    /// The number of each text's line.
    lines: Vec<u128>,
    /// What the last start tag was reported under, by the ids of the texts.
    ids: Vec<MatchId>,
}

impl Explained {
    /// Of the selectors of these lines. Reasons are found quickly by a table of the matcher's program.
    pub fn new(
        alloc: Global,
        selects: &SelectLines,
        mut explainer: Explainer,
        matcher: &Matcher,
    ) -> Result<Self, AllocError>
        ensures { IfOk result (λ made. (s : scripts.Script) → KeepsLines selects.now s.selects
            → matcher.now.failed ≡ false
            → HoldsItems (added_by (texts_in s)) (record { ast = matcher.now.told.ast; explainer = explainer })
            → Explains made s matcher.now.told.ast) }
    {
        explainer.index(matcher.machine().program())?;
        Ok(Explained {
            explainer,
            lines: selects.numbers(alloc)?,
            ids: matcher.list_for_ids(alloc)?,
        })
    }

    /// Adds the line of a start tag that was reported, and those of its reasons.
    #[inline(never)]
    pub fn push_started(
        &mut self,
        alloc: Global,
        text: &mut Vec<u8>,
        matcher: &Matcher,
        asked: bool,
        tries: Option<Tries>,
    ) -> Result<(), AllocError>
        ensures explains { (s : scripts.Script) → Explains self.old s matcher.now.told.ast
            → Explains self.new s matcher.now.told.ast }
        ensures text { OnOk result ((s : scripts.Script) → Explains self.old s matcher.now.told.ast
            → matcher.now.failed ≡ false → AreNumbered matcher.now.told
            → text.new.items ≡ text.old.items ++ explained_text self.old
            (reasons_told (texts_in s) matcher.now.told) matcher.now.opened asked tries) }
    {
        matcher.report(&self.explainer, &mut self.ids);
        text.extend_from_slice(b"start\t")?;
        push_ids(text, &self.ids, matcher.has_opened())?;
        push_start_end(text, asked, tries)?;
        let reasons = matcher.explain(alloc, &self.explainer)?;
        push_reasons(text, &self.lines, &reasons)
    }
}

fn push_reasons(text: &mut Vec<u8>, lines: &[u128], reasons: &[Reason]) -> Result<(), AllocError>
    ensures { OnOk result (text.new.items ≡ text.old.items
        ++ lines_of (lines_by lines.now (map reason_shown reasons.now))) }
{
    for reason in reasons {
        let line = lines.get(reason.item.text).copied().unwrap_or(0);
        push_reason(text, line, reason)?;
    }
    Ok(())
}
