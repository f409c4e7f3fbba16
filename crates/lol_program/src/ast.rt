//! The selectors that are looked for, as a tree in which equal beginnings are shared.

ghost use Rattle.std.specs.Prelude.{◌≡◌};
ghost use Rattle.lol_program.specs.Forest.{size, SiblingsDiffer, SiblingsDiffer-prop};
ghost use Rattle.lol_program.specs.Indexed.{IsNodeIndexOf, IsNodeIndexOf-prop};
ghost use Rattle.lol_program.specs.Views.{forest_of};

use crate::ast_node::{self, AstNode};
use crate::node_id::IdForNode;
use crate::node_index::NodeIndex;
use crate::node_key::root_list;
use lol_css::{ComplexSelector, Selector};
use lol_memory::MatchId;
use std::alloc::{AllocError, Global};

/// From so many nodes on, rows take less time than they cost (measured: docs/TESTED.md).
pub const ROWS_PAY_FROM: usize = 256;

/// The selectors that are looked for, as a tree in which equal beginnings are shared (lol_html's `Ast`). Seen from outside it is a set
/// of nodes, each known by its path, and a set of pairs of a path and an id.
#[derive(Debug, Drop, PartialEq, Eq)]
pub struct Ast {
    alloc: Global,
    root: Vec<AstNode>,
    node_index: NodeIndex,
    with_rows: bool,
    ghost counted: { node_index.node_count ≡ size (forest_of root.items) },
    ghost siblings: { SiblingsDiffer (forest_of root.items) } by { SiblingsDiffer-prop (forest_of root.items) },
    ghost indexed: { IsNodeIndexOf node_index (forest_of root.items) } by { IsNodeIndexOf-prop node_index (forest_of root.items) },
}

impl Ast {
    ghost use Rattle.std.specs.Prelude.{◌≢◌, ◌||◌, nat_le, ℕ, List, [], ◌∷◌, true, false, Some, IfOk, OnOk, OnErr, IsOk, Contains, length, map, flat_map, AllPairs};
    ghost use Rattle.lol_css.specs.TreeViews.{item_of, list_of};
    ghost use Rattle.lol_program.specs.Paths.{Path, beginnings, all_beginnings};
    ghost use Rattle.lol_program.specs.Conditions.{pairs_under, path_of};
    ghost use Rattle.lol_program.specs.IdsForNodes.{id_in, pairs_with, Fits, IsReserved};
    ghost use Rattle.lol_program.specs.AstPaths.{path_shown, IsIn, IsInWith, AllIn, AllFit};
    ghost use Rattle.lol_program.specs.Sets.{Joins, SameMembers, IsBetween};
    ghost use Rattle.lol_program.specs.Asts.{trees_of, nodes_of, pairs_of, is_with_rows};

    /// No selectors. It takes no memory.
    pub fn new(alloc: Global) -> Self
        ensures nodes { nodes_of result ≡ [] }
        ensures pairs { pairs_of result ≡ [] }
        ensures rows { is_with_rows result ≡ false }
    {
        Ast {
            alloc,
            root: Vec::new(alloc),
            node_index: NodeIndex::new(alloc),
            with_rows: false,
        }
    }

    /// The same tree, whose program is made with rows.
    pub fn with_rows(self) -> Ast
        ensures nodes { nodes_of result ≡ nodes_of self }
        ensures pairs { pairs_of result ≡ pairs_of self }
        ensures rows { is_with_rows result ≡ true }
    {
        let mut ast = self;
        ast.with_rows = true;
        ast
    }

    /// The same tree, whose program is made with rows if it has so many nodes or more.
    pub fn with_rows_from(self, fewest: usize) -> Ast
        ensures nodes { nodes_of result ≡ nodes_of self }
        ensures pairs { pairs_of result ≡ pairs_of self }
        ensures rows { is_with_rows result ≡ (is_with_rows self || nat_le fewest (length (nodes_of self))) }
    {
        if self.cumulative_node_count() < fewest {
            return self;
        }
        self.with_rows()
    }

    /// Whether its program is made with rows.
    pub fn has_rows(&self) -> bool
        ensures { result ≡ is_with_rows self.now }
    {
        self.with_rows
    }

    /// The nodes that no other stands above.
    pub fn root(&self) -> &[AstNode]
        ensures { forest_of result.now ≡ trees_of self.now }
    {
        self.root.as_slice()
    }

    /// The nodes that no other stands above, moved out.
    pub(crate) fn into_root(self) -> Vec<AstNode>
        ensures { forest_of result.items ≡ trees_of self }
    {
        self.root
    }

    /// The number of nodes, each of which has a path of its own.
    pub fn cumulative_node_count(&self) -> usize
        ensures count { result ≡ length (nodes_of self.now) }
        ensures each_once { AllPairs (λ a b. a ≢ b) (nodes_of self.now) }
    {
        self.node_index.node_count
    }

    /// Adds each item of a selector's list under an id: its compounds from the left, each step under the node of the one before it. A
    /// node is used again where the same list has an equal predicate, and goes last otherwise; the last one takes the id.
    ///
    /// It is refused where memory is, and where there would be more nodes than a `usize` counts. Then the ids are as they were, and so
    /// are the nodes but for some without ids, which are beginnings of the items.
    pub fn add_selector(&mut self, selector: &Selector, match_id: MatchId) -> Result<(), AllocError>
        ensures pairs { OnOk result
            (Joins (pairs_of self.old) (pairs_of self.new) (pairs_under match_id (list_of selector.now))) }
        ensures nodes { OnOk result (Joins (nodes_of self.old) (nodes_of self.new)
            (all_beginnings (pairs_under match_id (list_of selector.now)))) }
        ensures refused_pairs { OnErr result (SameMembers (pairs_of self.old) (pairs_of self.new)) }
        ensures refused_nodes { OnErr result (IsBetween (nodes_of self.old) (nodes_of self.new)
            (all_beginnings (pairs_under match_id (list_of selector.now)))) }
        ensures rows { is_with_rows self.new ≡ is_with_rows self.old }
    {
        match selector.list().items.as_slice() {
            [item] => self.add_path(item, IdForNode::Id(match_id)),
            items => {
                self.add_nodes(items)?;
                self.add_id(items, match_id)
            }
        }
    }

    /// Adds one item of a selector's list under an id, as `add_selector` adds each of them: where each item has an id of its own, a report
    /// tells which items match.
    ///
    /// It is refused where memory is, and where there would be more nodes than a `usize` counts. Then the ids are as they were, and so
    /// are the nodes but for some without ids, which are beginnings of the item.
    pub fn add_item(&mut self, item: &ComplexSelector, match_id: MatchId) -> Result<(), AllocError>
        ensures pairs { OnOk result
            (Joins (pairs_of self.old) (pairs_of self.new) ((path_of (item_of item.now), match_id) ∷ [])) }
        ensures nodes { OnOk result
            (Joins (nodes_of self.old) (nodes_of self.new) (beginnings (path_of (item_of item.now)))) }
        ensures refused_pairs { OnErr result (SameMembers (pairs_of self.old) (pairs_of self.new)) }
        ensures refused_nodes { OnErr result
            (IsBetween (nodes_of self.old) (nodes_of self.new) (beginnings (path_of (item_of item.now)))) }
        ensures rows { is_with_rows self.new ≡ is_with_rows self.old }
    {
        self.add_path(item, IdForNode::Id(match_id))
    }

    fn add_path(&mut self, item: &ComplexSelector, id: IdForNode) -> Result<(), AllocError>
        requires { IsReserved id → IsInWith (Fits id) (trees_of self.old) item.now }
        ensures pairs { OnOk result
            (Joins (pairs_of self.old) (pairs_of self.new) (pairs_with (id_in id) (path_shown item.now))) }
        ensures nodes { OnOk result (Joins (nodes_of self.old) (nodes_of self.new) (beginnings (path_shown item.now))) }
        ensures stands { OnOk result (IsIn (trees_of self.new) item.now) }
        ensures refused_pairs { OnErr result (SameMembers (pairs_of self.old) (pairs_of self.new)) }
        ensures refused_nodes { OnErr result
            (IsBetween (nodes_of self.old) (nodes_of self.new) (beginnings (path_shown item.now))) }
        ensures keeps { (items : List ComplexSelector)
            → AllIn (trees_of self.old) items → AllIn (trees_of self.new) items }
        ensures keeps_fit { (match_id : ℕ) (items : List ComplexSelector) (ids : List IdForNode)
            → id_in id ≡ Some match_id → AllFit match_id (trees_of self.old) items ids
            → AllFit match_id (trees_of self.new) items ids }
        ensures no_memory { IsInWith (Fits id) (trees_of self.old) item.now → IsOk result }
        ensures rows { is_with_rows self.new ≡ is_with_rows self.old }
    {
        ast_node::add_path(
            &mut self.node_index,
            &mut self.root,
            &mut root_list(),
            &item.first,
            &item.rest,
            id,
        )
    }

    /// Makes the nodes of paths that aren't there.
    fn add_nodes(&mut self, items: &[ComplexSelector]) -> Result<(), AllocError>
        ensures pairs { SameMembers (pairs_of self.old) (pairs_of self.new) }
        ensures nodes { OnOk result
            (Joins (nodes_of self.old) (nodes_of self.new) (flat_map beginnings (map path_shown items.now))) }
        ensures stands { OnOk result (AllIn (trees_of self.new) items.now) }
        ensures refused_nodes { OnErr result
            (IsBetween (nodes_of self.old) (nodes_of self.new) (flat_map beginnings (map path_shown items.now))) }
        ensures rows { is_with_rows self.new ≡ is_with_rows self.old }
    {
        for item in items {
            self.add_path(item, IdForNode::Nothing)?;
        }
        Ok(())
    }

    /// Gives an id to the last nodes of paths that stand. All that may be refused comes before the first change.
    fn add_id(&mut self, items: &[ComplexSelector], match_id: MatchId) -> Result<(), AllocError>
        requires { AllIn (trees_of self.old) items.now }
        ensures pairs { OnOk result
            (Joins (pairs_of self.old) (pairs_of self.new) (map (λ item. (path_shown item, match_id)) items.now)) }
        ensures nodes { OnOk result
            (Joins (nodes_of self.old) (nodes_of self.new) (flat_map beginnings (map path_shown items.now))) }
        ensures refused_pairs { OnErr result (SameMembers (pairs_of self.old) (pairs_of self.new)) }
        ensures refused_nodes { OnErr result
            (IsBetween (nodes_of self.old) (nodes_of self.new) (flat_map beginnings (map path_shown items.now))) }
        ensures rows { is_with_rows self.new ≡ is_with_rows self.old }
    {
        let ids = self.reserve_ids(items, match_id)?;
        for (item, id) in items.iter().zip(ids) {
            let Ok(()) = self.add_path(item, id) else {
                unreachable!();
            };
        }
        Ok(())
    }

    /// The id for each path, in order, with memory of its own where the last node has no room for it.
    fn reserve_ids(
        &self,
        items: &[ComplexSelector],
        match_id: MatchId,
    ) -> Result<Vec<IdForNode>, AllocError>
        requires { AllIn (trees_of self.now) items.now }
        ensures { IfOk result (λ ids. AllFit match_id (trees_of self.now) items.now ids.items) }
    {
        let mut ids = Vec::with_capacity(self.alloc, items.len())?;
        for item in items {
            let id = ast_node::reserve_id(
                &self.node_index,
                &self.root,
                &mut root_list(),
                &item.first,
                &item.rest,
                match_id,
            )?;
            ids.push(id)?;
        }
        Ok(ids)
    }
}
