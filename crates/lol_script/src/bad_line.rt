//! A script's first bad line.

ghost use Rattle.std.specs.Prelude.{◌≡◌, ◌++◌, ◌∷◌, [], OnOk};
ghost use Rattle.lol_script.specs.Output.{variant_name, combinator_sign, error_name, cause_name, bad_line};

use crate::output::push_line_number;
use lol_css::SelectorError;
use std::alloc::AllocError;

/// Why a line is bad.
#[derive(Debug, Clone, Copy, PartialEq, Eq)]
pub enum Cause {
    /// It has none of the forms of a line, or stands where it can't.
    Form,
    /// Its text is no selector.
    Selector(SelectorError),
}

/// The number of a bad line, from 1, and why it is bad.
#[derive(Debug, Clone, Copy, PartialEq, Eq)]
pub struct BadLine {
    pub number: u128,
    pub cause: Cause,
}

fn variant_name(error: SelectorError) -> &'static str
    ensures { result.now ≡ variant_name error }
{
    match error {
        SelectorError::UnexpectedToken => "UnexpectedToken",
        SelectorError::UnexpectedEnd => "UnexpectedEnd",
        SelectorError::MissingAttributeName => "MissingAttributeName",
        SelectorError::EmptySelector => "EmptySelector",
        SelectorError::DanglingCombinator => "DanglingCombinator",
        SelectorError::UnexpectedTokenInAttribute => "UnexpectedTokenInAttribute",
        SelectorError::UnsupportedPseudoClassOrElement => "UnsupportedPseudoClassOrElement",
        SelectorError::NestedNegation => "NestedNegation",
        SelectorError::NamespacedSelector => "NamespacedSelector",
        SelectorError::InvalidClassName => "InvalidClassName",
        SelectorError::EmptyNegation => "EmptyNegation",
        SelectorError::UnsupportedCombinator(_) => "UnsupportedCombinator",
        SelectorError::UnsupportedSyntax => "UnsupportedSyntax",
        SelectorError::Memory => "Memory",
    }
}

fn push_sign(text: &mut Vec<u8>, sign: char) -> Result<(), AllocError>
    ensures { OnOk result (text.new.items
        ≡ text.old.items ++ combinator_sign (SelectorError.UnsupportedCombinator sign)) }
{
    let mut buffer = [0u8; 4];
    text.push(b'(')?;
    text.extend_from_slice(sign.encode_utf8(&mut buffer).as_bytes())?;
    text.push(b')')?;
    Ok(())
}

fn push_error(text: &mut Vec<u8>, error: SelectorError) -> Result<(), AllocError>
    ensures { OnOk result (text.new.items ≡ text.old.items ++ error_name error) }
{
    text.extend_from_slice(variant_name(error).as_bytes())?;
    match error {
        SelectorError::UnsupportedCombinator(sign) => push_sign(text, sign),
        _ => Ok(()),
    }
}

fn push_cause(text: &mut Vec<u8>, cause: Cause) -> Result<(), AllocError>
    ensures { OnOk result (text.new.items ≡ text.old.items ++ cause_name cause) }
{
    match cause {
        Cause::Form => text.extend_from_slice(b"form"),
        Cause::Selector(error) => push_error(text, error),
    }
}

/// Adds the line for a script's first bad line.
pub fn push_bad_line(text: &mut Vec<u8>, bad: BadLine) -> Result<(), AllocError>
    ensures { OnOk result (text.new.items ≡ text.old.items ++ bad_line bad) }
{
    text.extend_from_slice(b"bad line ")?;
    push_line_number(text, bad.number)?;
    text.extend_from_slice(b": ")?;
    push_cause(text, bad.cause)?;
    text.push(b'\n')?;
    Ok(())
}
