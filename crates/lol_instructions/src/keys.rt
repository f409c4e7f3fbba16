//! Keys of compiled tests: what a start tag must have for its element to pass them.

ghost use Rattle.std.specs.Prelude.{◌≡◌, map, Option};
ghost use Rattle.std.specs.Option.{option_copied, option_map};
ghost use Rattle.lol_instructions.specs.CompiledKeys.{compiled_key_test, keys_in, key_shown, is_key_there, lacks_key, attribute_expr_key_test, operands_key};
ghost use Rattle.lol_instructions.specs.Keys.{ById, ByClass, ByAttribute, first_read, part_or_name, read_id, read_class, read_part, read_attribute, is_another_name};

use crate::attribute_matcher::{AttrExprOperands, AttributeMatcher};
use crate::compiled_expr::{AttributeExprTest, LocalNameExprTest};
use crate::compiled_predicate::{CompiledPredicate, CompiledTest};
use lol_base::{LocalName, ParsedCaseSensitivity};

/// How many bytes of an attribute's value are a key.
pub const PART_LENGTH: usize = 4;

/// An id, a class, a part of an attribute's value, or the name of an attribute, by its bytes.
#[derive(Clone, Copy)]
pub enum KeyBytes<'p> {
    /// The value of `id`.
    Id(&'p [u8]),
    /// A word of `class`.
    Class(&'p [u8]),
    /// The name of an attribute, and `PART_LENGTH` bytes of its value.
    Part(&'p [u8], &'p [u8]),
    /// The name of an attribute.
    Attribute(&'p [u8]),
}

impl KeyBytes<'_> {
    /// Whether a start tag has the key. It takes no memory.
    pub fn is_in(&self, matcher: &AttributeMatcher<'_>) -> bool
        ensures { result ≡ is_key_there (key_shown self.now) matcher.now }
    {
        match self {
            KeyBytes::Id(id) => matcher.has_id(id),
            KeyBytes::Class(name) => matcher.has_class(name),
            KeyBytes::Part(name, part) => matcher.has_attr_with_part(name, part),
            KeyBytes::Attribute(name) => matcher.has_attribute(name),
        }
    }
}

impl CompiledPredicate {
    /// The name of each element that passes, if there is one: that of the first test of a name.
    pub fn name_key(&self) -> Option<&LocalName<'static>>
        ensures { option_map (λ name. name.lowercased) (option_copied result) ≡ (keys_in self.now).name }
    {
        for test in &self.tests {
            if let CompiledTest::Name(expr) = test {
                if let LocalNameExprTest::LocalName(name) = &expr.test {
                    return Some(name);
                }
            }
        }
        None
    }

    /// What each element has that passes: the first id, else the first class, else a part of a value, else the name of the first attribute
    /// that is tested, if there is one. The part is the last of the first operand that has one and that is compared with case. Tests inside `:not`, `:is` and `:where`
    /// don't count.
    pub fn attribute_key(&self) -> Option<KeyBytes<'_>>
        ensures { option_map key_shown result ≡ (keys_in self.now).attribute }
    {
        if let Some(id) = first_id(&self.tests) {
            return Some(KeyBytes::Id(id));
        }
        if let Some(name) = first_class(&self.tests) {
            return Some(KeyBytes::Class(name));
        }
        if let Some(key) = first_part(&self.tests) {
            return Some(key);
        }
        first_attribute(&self.tests).map(KeyBytes::Attribute)
    }

    /// Whether it is known of each element of the name that its attributes are needed: but for the test of the name, and `*`, there are
    /// tests, and all are of attributes.
    pub fn opens_where_named(&self) -> bool
        ensures { result ≡ (keys_in self.now).opens }
    {
        let mut is_named = false;
        let mut opens = false;
        for test in &self.tests {
            match test {
                CompiledTest::Name(expr) => match &expr.test {
                    LocalNameExprTest::Any => (),
                    LocalNameExprTest::LocalName(_) if !is_named => is_named = true,
                    _ => return false,
                },
                CompiledTest::Attribute(_) => opens = true,
                CompiledTest::NoneOf(_) | CompiledTest::SomeOf(_) => return false,
            }
        }
        opens
    }

    /// Whether every element of this name fails because another name is tested. It takes no memory.
    pub fn has_other_name(&self, local_name: &LocalName<'_>) -> bool
        ensures { result ≡ is_another_name (keys_in self.now).name local_name.now.lowercased }
    {
        match self.name_key() {
            Some(name) => *local_name != *name,
            None => false,
        }
    }

    /// Whether an element with these attributes fails because they lack the key. It takes no memory.
    pub fn lacks_key(&self, matcher: &AttributeMatcher<'_>) -> bool
        ensures { result ≡ lacks_key (keys_in self.now).attribute matcher.now }
    {
        match self.attribute_key() {
            Some(key) => !key.is_in(matcher),
            None => false,
        }
    }
}

fn first_id(tests: &[CompiledTest]) -> Option<&[u8]>
    ensures { option_map ById (option_copied result) ≡ first_read read_id (map compiled_key_test tests.now) }
{
    for test in tests {
        if let CompiledTest::Attribute(expr) = test {
            if let AttributeExprTest::Id(id) = &expr.test {
                return Some(id);
            }
        }
    }
    None
}

fn first_class(tests: &[CompiledTest]) -> Option<&[u8]>
    ensures { option_map ByClass (option_copied result) ≡ first_read read_class (map compiled_key_test tests.now) }
{
    for test in tests {
        if let CompiledTest::Attribute(expr) = test {
            if let AttributeExprTest::Class(name) = &expr.test {
                return Some(name);
            }
        }
    }
    None
}

fn first_part(tests: &[CompiledTest]) -> Option<KeyBytes<'_>>
    ensures { option_map key_shown result ≡ first_read read_part (map compiled_key_test tests.now) }
{
    for test in tests {
        if let CompiledTest::Attribute(expr) = test {
            if let Some(key) = tested_part(&expr.test) {
                return Some(key);
            }
        }
    }
    None
}

/// The attribute and the part of its value that a test looks at, if there is one.
fn tested_part(test: &AttributeExprTest) -> Option<KeyBytes<'_>>
    ensures { option_map key_shown result ≡ read_part (attribute_expr_key_test test.now) }
{
    match test {
        AttributeExprTest::Equal(operands)
        | AttributeExprTest::Includes(operands)
        | AttributeExprTest::DashMatch(operands)
        | AttributeExprTest::Prefix(operands)
        | AttributeExprTest::Suffix(operands)
        | AttributeExprTest::Substring(operands) => {
            Some(KeyBytes::Part(&operands.name, last_part(operands)?))
        }
        AttributeExprTest::Never
        | AttributeExprTest::Id(_)
        | AttributeExprTest::Class(_)
        | AttributeExprTest::Exists(_) => None,
    }
}

/// The last bytes of an operand that is compared with case, if it has so many.
fn last_part(operands: &AttrExprOperands) -> Option<&[u8]>
    ensures { operands_key operands.now ≡ part_or_name operands.now.name.items (option_copied result) }
{
    match operands.case_sensitivity {
        ParsedCaseSensitivity::ExplicitCaseSensitive | ParsedCaseSensitivity::CaseSensitive => {
            let start = operands.value.len().checked_sub(PART_LENGTH)?;
            Some(&operands.value[start..])
        }
        ParsedCaseSensitivity::AsciiCaseInsensitive
        | ParsedCaseSensitivity::AsciiCaseInsensitiveIfInHtmlElementInHtmlDocument => None,
    }
}

fn first_attribute(tests: &[CompiledTest]) -> Option<&[u8]>
    ensures { option_map ByAttribute (option_copied result)
        ≡ first_read read_attribute (map compiled_key_test tests.now) }
{
    for test in tests {
        if let CompiledTest::Attribute(expr) = test {
            if let Some(name) = tested_name(&expr.test) {
                return Some(name);
            }
        }
    }
    None
}

/// The name of the attribute that a test looks at, unless it has another key or none.
fn tested_name(test: &AttributeExprTest) -> Option<&[u8]>
    ensures { option_map ByAttribute (option_copied result) ≡ read_attribute (attribute_expr_key_test test.now) }
{
    match test {
        AttributeExprTest::Never | AttributeExprTest::Id(_) | AttributeExprTest::Class(_) => None,
        AttributeExprTest::Exists(name) => Some(name),
        AttributeExprTest::Equal(operands)
        | AttributeExprTest::Includes(operands)
        | AttributeExprTest::DashMatch(operands)
        | AttributeExprTest::Prefix(operands)
        | AttributeExprTest::Suffix(operands)
        | AttributeExprTest::Substring(operands) => match last_part(operands) {
            Some(_) => None,
            None => Some(&operands.name),
        },
    }
}
