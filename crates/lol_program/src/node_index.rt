//! Where nodes stand among their siblings.

ghost use Rattle.std.specs.Prelude.{◌≡◌, ◌+◌, IfSome, IfNone, OnOk, map};
ghost use Rattle.std.specs.Cmp.{partial_equiv_from_equiv};
ghost use Rattle.lol_program.specs.Forest.{SiblingsDiffer};
ghost use Rattle.lol_program.specs.NodeIndexLaws.{always, always_equivalence};
ghost use Rattle.lol_program.specs.Indexed.{IsIndexed, IsListed, IsFirstFree, KeepsKeys};
ghost use Rattle.lol_program.specs.Indices.{IsIndex, IsNowhere, IsNowhereFrom};
ghost use Rattle.lol_program.specs.Views.{node_of, forest_of, tests_of_compound};

use crate::ast_node::AstNode;
use crate::node_key::node_key;
use lol_css::Compound;
use std::alloc::{AllocError, Global};
use std::collections::BTreeMap;
use std::hash::DefaultHasher;

/// How many nodes of each list have no keys: they are found by comparing each.
const FEW: usize = 32;

/// How many salts there are: each node has so many keys.
const SALTS: u8 = 16;

/// Where nodes stand among their siblings, by their keys, and how many nodes there are.
///
/// A node that has `FEW` siblings before it has a key for each salt, and its index is at the first of these that was free. What stands at
/// a key is never changed. Where no key was free, which takes other nodes with the same keys, the node is found by comparing each.
///
/// Nothing else is promised: a key may be here without its node, which was refused memory after it, or with the index of another node. So
/// what stands at the index is compared with what is looked for.
#[derive(Debug, Drop)]
pub(crate) struct NodeIndex {
    pub(crate) alloc: Global,
    indices: BTreeMap<u64, usize>,
    pub(crate) node_count: usize,
}

impl PartialEq for NodeIndex {
    ghost eq = { always };

    ghost laws = { partial_equiv_from_equiv always_equivalence };

    /// Always: trees are compared by their nodes.
    fn eq(&self, _other: &NodeIndex) -> bool {
        true
    }
}

impl Eq for NodeIndex {
    ghost laws = { always_equivalence };
}

impl NodeIndex {
    /// No nodes. It takes no memory.
    pub(crate) fn new(alloc: Global) -> Self
        ensures { result.node_count ≡ 0 }
    {
        NodeIndex {
            alloc,
            indices: BTreeMap::new(alloc),
            node_count: 0,
        }
    }

    /// The index of the node with the tests of a compound, in a list.
    pub(crate) fn index_of(
        &self,
        nodes: &[AstNode],
        list: &DefaultHasher,
        compound: &Compound,
    ) -> Option<usize>
        requires indexed { IsIndexed self.now list.now (forest_of nodes.now) }
        requires differ { SiblingsDiffer (forest_of nodes.now) }
        ensures some { IfSome result (λ i. IsIndex (tests_of_compound compound.now) (map node_of nodes.now) i) }
        ensures none { IfNone result (IsNowhere (tests_of_compound compound.now) (map node_of nodes.now)) }
    {
        if nodes.len() <= FEW {
            return first_index_of(nodes, compound);
        }
        if let Some(index) = first_index_of(&nodes[..FEW], compound) {
            return Some(index);
        }
        self.index_by_key(nodes, list, compound)
    }

    /// The index of the node with the tests of a compound, in a list where it isn't among the first few.
    fn index_by_key(
        &self,
        nodes: &[AstNode],
        list: &DefaultHasher,
        compound: &Compound,
    ) -> Option<usize>
        requires indexed { IsIndexed self.now list.now (forest_of nodes.now) }
        requires differ { SiblingsDiffer (forest_of nodes.now) }
        ensures some { IfSome result (λ i. IsIndex (tests_of_compound compound.now) (map node_of nodes.now) i) }
        ensures none { IfNone result (IsNowhereFrom FEW (tests_of_compound compound.now) (map node_of nodes.now)) }
    {
        for salt in 0..SALTS {
            let index = self.indices.get(&node_key(list, salt, compound)).copied()?;
            if index < nodes.len() && nodes[index].predicate.is_of(compound) {
                return Some(index);
            }
        }
        first_index_of(nodes, compound)
    }

    /// Notes a node that is to be made at an index of a list, unless it is one of the first few.
    pub(crate) fn insert(
        &mut self,
        list: &DefaultHasher,
        index: usize,
        compound: &Compound,
    ) -> Result<(), AllocError>
        ensures listed { OnOk result (IsListed self.new list.now index (tests_of_compound compound.now)) }
        ensures keeps { KeepsKeys self.old self.new }
        ensures count { self.new.node_count ≡ self.old.node_count }
    {
        let Some(key) = self.free_key(list, index, compound) else {
            return Ok(());
        };
        self.indices.insert(key, index)?;
        Ok(())
    }

    /// The first key of a node that is free, unless the node needs none: it is one of the first few, its index is at a key before, or no
    /// key is free.
    fn free_key(&self, list: &DefaultHasher, index: usize, compound: &Compound) -> Option<u64>
        ensures some { IfSome result (IsFirstFree self.now list.now (tests_of_compound compound.now)) }
        ensures none { IfNone result (IsListed self.now list.now index (tests_of_compound compound.now)) }
    {
        if index < FEW {
            return None;
        }
        for salt in 0..SALTS {
            let key = node_key(list, salt, compound);
            match self.indices.get(&key).copied() {
                None => return Some(key),
                Some(taken) => {
                    if taken == index {
                        return None;
                    }
                }
            }
        }
        None
    }
}

/// The index of the first node with the tests of a compound, found by comparing each.
fn first_index_of(nodes: &[AstNode], compound: &Compound) -> Option<usize>
    ensures some { IfSome result (λ i. IsIndex (tests_of_compound compound.now) (map node_of nodes.now) i) }
    ensures none { IfNone result (IsNowhere (tests_of_compound compound.now) (map node_of nodes.now)) }
{
    for (i, node) in nodes.iter().enumerate() {
        if node.predicate.is_of(compound) {
            return Some(i);
        }
    }
    None
}
