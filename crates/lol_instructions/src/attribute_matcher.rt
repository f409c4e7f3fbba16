//! Tests of attributes over borrowed input.

ghost use Rattle.std.specs.Prelude.{◌≡◌, ◌==◌, true, [], ◌∷◌, All, map, length, unwrap_or, codes, slice_get};
ghost use Rattle.std.specs.Option.{option_copied, option_map, option_or};
ghost use Rattle.std.specs.Char.{to_ascii_lowercase};
ghost use Rattle.std.specs.Str.{bytes_eq};
ghost use Rattle.std.specs.Bool.{OnTrue};
ghost use Rattle.lol_base.specs.Names.{lowercased};
ghost use Rattle.lol_base.specs.StartTags.{bytes_of, attribute_of, OutlineIsInside};
ghost use Rattle.lol_base.specs.declared.comparison.AttrSelectorOperator.TheVariants.{Equal, Includes, DashMatch, Prefix, Substring, Suffix};
ghost use Rattle.lol_instructions.specs.Tests.{has_value, ignores_case, operator_holds};
ghost use Rattle.lol_instructions.specs.Attributes.{value_among, value_in, ignores, operands_hold};
ghost use Rattle.lol_instructions.specs.Marks.{LacksOne};

use crate::attribute_value::{
    has_dash_match, has_prefix, has_substring, has_suffix, has_word, is_equal,
};
use crate::marks::Marks;
use lol_base::{
    AttributeBuffer, AttributeOutline, Bytes, CaseSensitivity, Namespace, ParsedCaseSensitivity,
};
use std::marker::Model;

/// What the value of an attribute is compared with, as lol_html's `AttrExprOperands`.
#[derive(Debug, Drop, PartialEq, Eq)]
pub struct AttrExprOperands {
    /// The attribute's name in ASCII lower case; with a capital in it no attribute has the name.
    pub name: Vec<u8>,
    /// What the attribute's value is compared with.
    pub value: Vec<u8>,
    /// Whether ASCII case counts.
    pub case_sensitivity: ParsedCaseSensitivity,
}

/// Tests of the attributes of a start tag, as lol_html's `AttributeMatcher`. An attribute's value is that of the first attribute whose name in
/// ASCII lower case is the name that is asked for; it is empty where none is written. A look-up takes a step for each attribute before that
/// one; those of `id` and `class` are made with the matcher. No call takes memory.
#[derive(Drop)]
pub struct AttributeMatcher<'i> {
    input: &'i [u8],
    attributes: &'i AttributeBuffer,
    id: Option<&'i [u8]>,
    class: Option<&'i [u8]>,
    namespace: Namespace,
    marks: Marks,
}

impl<'i> Model for AttributeMatcher<'i> {
    ghost use Rattle.lol_instructions.specs.Attributes.{TagAttributes};

    ghost Value = { TagAttributes };

    ghost use Rattle.lol_instructions.specs.Matchers.{attributes_seen, IsMatcher};

    ghost view = { attributes_seen };

    ghost invariant = { IsMatcher };
}

impl<'i> AttributeMatcher<'i> {
    /// The attributes that stand in these ranges of the input, of an element in this namespace. Each name range and each value range lies
    /// inside the input. They are walked over once.
    pub fn new(input: Bytes<'i>, attributes: &'i AttributeBuffer, ns: Namespace) -> Self
        requires { All (OutlineIsInside (bytes_of input)) attributes.now.items }
        ensures { result
            ≡ record { attributes = map (attribute_of (bytes_of input.entry)) attributes.now.items; namespace = ns } }
    {
        let input = input.as_slice();
        let mut marks = Marks::none();
        let mut id = None;
        let mut class = None;
        for outline in attributes {
            let name = &input[outline.name.start..outline.name.end];
            marks = marks.with(Marks::of_name(name));
            id = first_value(id, input, outline, b"id");
            class = first_value(class, input, outline, b"class");
        }
        AttributeMatcher {
            input,
            attributes,
            id,
            class,
            namespace: ns,
            marks: marks.with_id(id).with_words(class),
        }
    }

    /// The value of `id`, if it is there.
    pub fn id(&self) -> Option<&'i [u8]>
        ensures { option_copied result ≡ value_in (codes "id") self.now }
    {
        self.id
    }

    /// The value of `class`, if it is there.
    pub fn class(&self) -> Option<&'i [u8]>
        ensures { option_copied result ≡ value_in (codes "class") self.now }
    {
        self.class
    }

    /// The name of the attribute at an index, from 0, as it is written; none where there are not so many.
    pub fn name_at(&self, index: usize) -> Option<&'i [u8]>
        ensures { option_copied result ≡ option_map (λ a. a.name) (slice_get self.now.attributes index) }
    {
        let outline = self.attributes.get(index)?;
        Some(&self.input[outline.name.start..outline.name.end])
    }

    /// The value of the attribute at an index, from 0, which is empty where none is written; none where there are not so many attributes.
    pub fn value_at(&self, index: usize) -> Option<&'i [u8]>
        ensures { option_copied result
            ≡ option_map (λ a. unwrap_or a.value []) (slice_get self.now.attributes index) }
    {
        Some(value_at(self.input, self.attributes.get(index)?))
    }

    /// Whether the attribute is there.
    pub fn has_attribute(&self, name: &[u8]) -> bool
        ensures { result ≡ has_value (value_in name.now self.now) (λ value. true) }
    {
        self.value_of(name).is_some()
    }

    /// Whether the value of `id` is this, with case.
    pub fn has_id(&self, id: &[u8]) -> bool
        ensures { result ≡ has_value (value_in (codes "id") self.now) (λ value. bytes_eq value id.now) }
    {
        match self.id {
            Some(value) => value == id,
            None => false,
        }
    }

    /// Whether a word of `class` is this, with case. The words are the pieces between white space, so they may be empty.
    pub fn has_class(&self, name: &[u8]) -> bool
        ensures { result
            ≡ has_value (value_in (codes "class") self.now) (λ value. operator_holds Includes value name.now) }
    {
        match self.class {
            Some(value) => has_word(value, name, CaseSensitivity::CaseSensitive),
            None => false,
        }
    }

    /// Whether the attribute's value is the operand.
    pub fn attr_eq(&self, operand: &AttrExprOperands) -> bool
        ensures { result ≡ operands_hold Equal operand.now self.now }
    {
        match self.value_of(&operand.name) {
            Some(value) => is_equal(value, &operand.value, self.case_of(operand)),
            None => false,
        }
    }

    /// Whether a word of the attribute's value is the operand.
    pub fn matches_splitted_by_whitespace(&self, operand: &AttrExprOperands) -> bool
        ensures { result ≡ operands_hold Includes operand.now self.now }
    {
        match self.value_of(&operand.name) {
            Some(value) => has_word(value, &operand.value, self.case_of(operand)),
            None => false,
        }
    }

    /// Whether the attribute's value begins with the operand.
    pub fn has_attr_with_prefix(&self, operand: &AttrExprOperands) -> bool
        ensures { result ≡ operands_hold Prefix operand.now self.now }
    {
        match self.value_of(&operand.name) {
            Some(value) => has_prefix(value, &operand.value, self.case_of(operand)),
            None => false,
        }
    }

    /// Whether the attribute's value ends with the operand.
    pub fn has_attr_with_suffix(&self, operand: &AttrExprOperands) -> bool
        ensures { result ≡ operands_hold Suffix operand.now self.now }
    {
        match self.value_of(&operand.name) {
            Some(value) => has_suffix(value, &operand.value, self.case_of(operand)),
            None => false,
        }
    }

    /// Whether the attribute's value is the operand, or begins with the operand and a hyphen.
    pub fn has_dash_matching_attr(&self, operand: &AttrExprOperands) -> bool
        ensures { result ≡ operands_hold DashMatch operand.now self.now }
    {
        match self.value_of(&operand.name) {
            Some(value) => has_dash_match(value, &operand.value, self.case_of(operand)),
            None => false,
        }
    }

    /// Whether the operand isn't empty and stands in the attribute's value. With case the search is linear. Without, it takes at worst as
    /// many steps as the product of the two lengths, and the operand is the choice of the selector's author.
    pub fn has_attr_with_substring(&self, operand: &AttrExprOperands) -> bool
        ensures { result ≡ operands_hold Substring operand.now self.now }
    {
        match self.value_of(&operand.name) {
            Some(value) => has_substring(value, &operand.value, self.case_of(operand)),
            None => false,
        }
    }

    /// Whether these bytes, which aren't none, stand in the attribute's value, with case. The name is in ASCII lower case.
    pub(crate) fn has_attr_with_part(&self, name: &[u8], part: &[u8]) -> bool
        ensures { result
            ≡ has_value (value_in name.now self.now) (λ value. operator_holds Substring value part.now) }
    {
        match self.value_of(name) {
            Some(value) => has_substring(value, part, CaseSensitivity::CaseSensitive),
            None => false,
        }
    }

    /// Whether the attributes lack something that is needed: no attribute test of some mark of `needs` holds. It may be false all the same.
    #[inline(always)]
    pub(crate) fn lacks(&self, needs: Marks) -> bool
        ensures { OnTrue result (LacksOne needs self.now) }
    {
        self.marks.lack(needs)
    }

    fn value_of(&self, name: &[u8]) -> Option<&'i [u8]>
        ensures { option_copied result ≡ value_in name.now self.now }
    {
        find_value(self.input, self.attributes, name)
    }

    fn case_of(&self, operand: &AttrExprOperands) -> CaseSensitivity
        ensures { ignores result ≡ ignores_case operand.now.case_sensitivity self.now.namespace }
    {
        match operand.case_sensitivity {
            ParsedCaseSensitivity::ExplicitCaseSensitive | ParsedCaseSensitivity::CaseSensitive => {
                CaseSensitivity::CaseSensitive
            }
            ParsedCaseSensitivity::AsciiCaseInsensitive => CaseSensitivity::AsciiCaseInsensitive,
            ParsedCaseSensitivity::AsciiCaseInsensitiveIfInHtmlElementInHtmlDocument => {
                if self.namespace == Namespace::Html {
                    CaseSensitivity::AsciiCaseInsensitive
                } else {
                    CaseSensitivity::CaseSensitive
                }
            }
        }
    }
}

// The value of the first attribute of that name.
fn find_value<'i>(input: &'i [u8], attributes: &[AttributeOutline], name: &[u8]) -> Option<&'i [u8]>
    requires { All (OutlineIsInside input.now) attributes.now }
    ensures { option_copied result ≡ value_among name.now (map (attribute_of input.now) attributes.now) }
{
    for outline in attributes {
        if is_lowercased(&input[outline.name.start..outline.name.end], name) {
            return Some(value_at(input, outline));
        }
    }
    None
}

// The value that was found, or else that of this attribute if it has the name.
#[inline(always)]
fn first_value<'i>(
    found: Option<&'i [u8]>,
    input: &'i [u8],
    outline: &AttributeOutline,
    name: &[u8],
) -> Option<&'i [u8]>
    requires { OutlineIsInside input.now outline.now }
    ensures { option_copied result
        ≡ option_or (option_copied found.entry) (value_among name.now (attribute_of input.now outline.now ∷ [])) }
{
    if found.is_none() && is_lowercased(&input[outline.name.start..outline.name.end], name) {
        Some(value_at(input, outline))
    } else {
        found
    }
}

// The value of an attribute, which is empty where none is written.
#[inline(always)]
fn value_at<'i>(input: &'i [u8], outline: &AttributeOutline) -> &'i [u8]
    requires { OutlineIsInside input.now outline.now }
    ensures { result.now ≡ unwrap_or (attribute_of input.now outline.now).value [] }
{
    match outline.value {
        Some(range) => &input[range.start..range.end],
        None => &[],
    }
}

// Whether the name of an attribute in lower case is the name that is asked for.
#[inline(always)]
fn is_lowercased(actual: &[u8], name: &[u8]) -> bool
    ensures { result ≡ bytes_eq (lowercased actual.now) name.now }
{
    actual.len() == name.len() && has_lowercased(actual, name)
}

fn has_lowercased(actual: &[u8], name: &[u8]) -> bool
    requires { length actual.now ≡ length name.now }
    ensures { result ≡ bytes_eq (lowercased actual.now) name.now }
{
    for (at, byte) in actual.iter().enumerate() {
        if !is_lower_case_of(name[at], *byte) {
            return false;
        }
    }
    true
}

// Whether a byte is another one in lower case; it mostly is that byte.
#[inline(always)]
fn is_lower_case_of(byte: u8, actual: u8) -> bool
    ensures { result ≡ (to_ascii_lowercase actual == byte) }
{
    if byte == actual {
        !matches!(byte, b'A'..=b'Z')
    } else {
        actual.to_ascii_lowercase() == byte
    }
}
