//! The keys by which nodes are found: made of their tests, and of the steps and indices of the path to their list.

ghost use Rattle.std.specs.Prelude.{◌≡◌, IfSome};
ghost use Rattle.lol_css.specs.TreeViews.{part_of, item_of, list_of};
ghost use Rattle.lol_program.specs.Conditions.{plain_test, part_test, item_compound, items_compounds};
ghost use Rattle.lol_program.specs.Views.{tests_of_compound};
ghost use Rattle.lol_program.specs.NodeKeys as keys;

use lol_css::{
    AttrSelectorOperator, Combinator, ComplexSelector, Compound, CssString, ParsedCaseSensitivity,
    SelectorList, SimpleSelector,
};
use std::hash::{DefaultHasher, Hasher};

/// After a text, and after a list: no text in UTF-8 has this byte, and no kind of test.
const END: u8 = 255;

/// The list of the nodes that stand under no other: a hasher that was given no step.
pub(crate) fn root_list() -> DefaultHasher
    ensures { result ≡ keys.root_list }
{
    DefaultHasher::new()
}

/// Goes from a list to that of the nodes by a step under the node at an index: a whole word, since a hasher takes these fastest.
///
/// The first byte of a word is that of its step, which is no salt, and the others hold every index that memory has room for. So no two
/// paths with a salt and tests give a hasher the same bytes.
pub(crate) fn add_step(list: &mut DefaultHasher, index: usize, combinator: Combinator)
    ensures { list.new ≡ keys.list_under list.old index combinator }
{
    let above = (index as u64).wrapping_mul(256);
    list.write_u64(above.wrapping_add(step_byte(combinator) as u64));
}

/// What CSS writes for a step: no salt is so great.
fn step_byte(combinator: Combinator) -> u8
    ensures { result ≡ keys.step_byte combinator }
{
    match combinator {
        Combinator::Child => b'>',
        Combinator::Descendant => b' ',
    }
}

/// The key of the node with the tests of a compound in a list, with a salt.
// Inlined, it would make each step of a recursion take more of the stack.
#[inline(never)]
pub(crate) fn node_key(list: &DefaultHasher, salt: u8, compound: &Compound) -> u64
    ensures { result ≡ keys.node_key list.now salt (tests_of_compound compound.now) }
{
    let mut hasher = *list;
    hasher.write_u8(salt);
    for part in compound.parts.iter().rev() {
        hash_part(&mut hasher, part);
    }
    hasher.write_u8(END);
    hasher.finish()
}

#[cycle(hashing)]
fn hash_part(hasher: &mut DefaultHasher, part: &SimpleSelector)
    ensures { hasher.new ≡ keys.test_hashed hasher.old (part_test (part_of part.now)) }
{
    match part {
        SimpleSelector::Negation(list) => {
            hasher.write_u8(9);
            hash_list(hasher, list);
        }
        SimpleSelector::Is(list) | SimpleSelector::Where(list) => {
            hasher.write_u8(10);
            hash_list(hasher, list);
        }
        _ => hash_plain(hasher, part),
    }
}

#[cycle(hashing)]
fn hash_list(hasher: &mut DefaultHasher, list: &SelectorList)
    ensures { hasher.new ≡ keys.compounds_hashed hasher.old (items_compounds (list_of list.now)) }
{
    for item in &list.items {
        hash_item(hasher, item);
    }
    hasher.write_u8(END);
}

#[cycle(hashing)]
fn hash_item(hasher: &mut DefaultHasher, item: &ComplexSelector)
    ensures { hasher.new ≡ keys.compound_hashed hasher.old (item_compound (item_of item.now)) }
{
    let compound = match item.rest.as_slice() {
        [] => &item.first,
        [.., (_, last)] => last,
    };
    for part in &compound.parts {
        hash_part(hasher, part);
    }
    hasher.write_u8(END);
}

/// A part that has no parts of its own.
fn hash_plain(hasher: &mut DefaultHasher, part: &SimpleSelector)
    ensures { IfSome (plain_test (part_of part.now)) (λ test. hasher.new ≡ keys.test_hashed hasher.old test) }
{
    match part {
        SimpleSelector::ExplicitUniversalType => hasher.write_u8(0),
        SimpleSelector::ExplicitNoNamespace => hasher.write_u8(1),
        SimpleSelector::LocalName(name) => hash_text(hasher, 2, name),
        SimpleSelector::ID(id) => hash_text(hasher, 5, id),
        SimpleSelector::Class(name) => hash_text(hasher, 6, name),
        SimpleSelector::AttributeExists { name } => hash_text(hasher, 7, name),
        SimpleSelector::AttributeComparison {
            name,
            value,
            operator,
            case_sensitivity,
        } => {
            hash_text(hasher, 8, name);
            hasher.write(value.as_str().as_bytes());
            hasher.write_u8(END);
            hasher.write_u8(operator_byte(*operator));
            hasher.write_u8(case_byte(*case_sensitivity));
        }
        SimpleSelector::Nth { of_type, nth } => {
            hasher.write_u8(if *of_type { 4 } else { 3 });
            hasher.write_i32(nth.step());
            hasher.write_i32(nth.offset());
        }
        SimpleSelector::Negation(_) | SimpleSelector::Is(_) | SimpleSelector::Where(_) => (),
    }
}

fn hash_text(hasher: &mut DefaultHasher, kind: u8, text: &CssString)
    ensures { hasher.new ≡ keys.text_hashed (keys.byte_hashed hasher.old kind) text.now }
{
    hasher.write_u8(kind);
    hasher.write(text.as_str().as_bytes());
    hasher.write_u8(END);
}

fn operator_byte(operator: AttrSelectorOperator) -> u8
    ensures { result ≡ keys.operator_byte operator }
{
    operator as u8
}

fn case_byte(case: ParsedCaseSensitivity) -> u8
    ensures { result ≡ keys.case_byte case }
{
    case as u8
}
