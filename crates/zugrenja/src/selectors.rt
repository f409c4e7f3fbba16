//! The selectors of a search.

ghost use Rattle.std.specs.Prelude.{◌≡◌, false, map, string_bytes, IfErr, IfOk, OnOk};
ghost use Rattle.lol_matcher.specs.Building.{Adds, IsRefused};
ghost use Rattle.lol_program.specs.Asts.{pairs_of};
ghost use Rattle.zugrenja.specs.PageReadings.{told_nothing};
ghost use Rattle.zugrenja.specs.Selectors.{HasSelectors, IsRefusedAt};

use lol_matcher::{AddError, MatchId, Matcher, MatcherBuilder, ROWS_PAY_FROM};
use std::alloc::{AllocError, Global};
use std::rt::Files;
use std::{fs, io};

/// A selector that wasn't added.
#[derive(Clone, Copy, Debug, PartialEq, Eq)]
pub struct Refused {
    /// Its number, from 1.
    pub number: MatchId,
    pub error: AddError,
}

/// The matcher of selectors, each under its number, from 1. It spares nodes by rows where there are so many that rows pay.
///
/// # Errors
/// The first selector that isn't accepted, or `Memory`.
#[tactic(auto, using(crate::proofs::SelectorLists::memory_at))]
pub fn build_matcher(alloc: Global, selectors: &[String]) -> Result<Matcher, Refused>
    ensures selectors { IfOk result (λ matcher.
        HasSelectors (map (λ text. string_bytes text) selectors.now) matcher.told.ast) }
    ensures fresh { IfOk result (λ matcher. matcher.told ≡ told_nothing matcher.told.ast false) }
    ensures refused { IfErr result (λ refused.
        IsRefusedAt (map (λ text. string_bytes text) selectors.now) refused.number refused.error) }
{
    let mut builder = Matcher::builder(alloc);
    let mut number = 0;
    for selector in selectors {
        if number == MatchId::MAX {
            return Err(no_memory(number));
        }
        number += 1;
        match add_numbered(&mut builder, number, selector.as_str()) {
            Ok(()) => {}
            Err(refused) => return Err(refused),
        }
    }
    let matcher = build_fresh(builder, number)?;
    Ok(matcher)
}

fn build_fresh(mut builder: MatcherBuilder, number: MatchId) -> Result<Matcher, Refused>
    requires { builder.enable_esi_tags ≡ false }
    ensures pairs { IfOk result (λ matcher. pairs_of matcher.told.ast ≡ pairs_of builder.ast) }
    ensures fresh { IfOk result (λ matcher. matcher.told ≡ told_nothing matcher.told.ast false) }
    ensures memory { IfErr result (λ refused. refused.error ≡ AddError.Memory) }
{
    builder.ast = builder.ast.with_rows_from(ROWS_PAY_FROM);
    match builder.build() {
        Ok(matcher) => Ok(matcher),
        Err(_) => Err(no_memory(number)),
    }
}

fn add_numbered(builder: &mut MatcherBuilder, number: MatchId, text: &str) -> Result<(), Refused>
    ensures added { OnOk result (Adds number text.now builder.old.ast builder.new.ast) }
    ensures esi { builder.new.enable_esi_tags ≡ builder.old.enable_esi_tags }
    ensures number { IfErr result (λ refused. refused.number ≡ number) }
    ensures refused { IfErr result (λ refused. IsRefused text.now refused.error) }
{
    match builder.add(number, text) {
        Ok(()) => Ok(()),
        Err(error) => Err(Refused { number, error }),
    }
}

fn no_memory(number: MatchId) -> Refused
    ensures { result.error ≡ AddError.Memory }
{
    Refused {
        number,
        error: AddError::Memory,
    }
}

/// Adds the selectors of a file, one a line. Lines with nothing but white space are skipped.
pub fn read_selectors<R: Files + AllocGlobal>(
    rt: &R,
    file: &str,
    selectors: &mut Vec<String>,
) -> io::Result<()> {
    let text = fs::read_to_string(rt, file)?;
    Ok(push_lines(rt.alloc(), text.as_str(), selectors)?)
}

fn push_lines(alloc: Global, text: &str, selectors: &mut Vec<String>) -> Result<(), AllocError> {
    for line in text.lines() {
        if !line.trim().is_empty() {
            selectors.push(String::from_str(alloc, line)?)?;
        }
    }
    Ok(())
}
