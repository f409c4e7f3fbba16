//! The id that a path's last node gets, with the memory that it needs.

ghost use Rattle.std.specs.Prelude.{◌≡◌, Some, IfOk, OnOk, OnErr, IsOk};
ghost use Rattle.lol_memory.specs.Ids.{ascending, with_id};
ghost use Rattle.lol_program.specs.IdsForNodes.{id_in, SetTakes, Fits, IsReserved};

use lol_memory::{DenseHashSet, MatchId};
use std::alloc::AllocError;

/// The id that a path's last node gets.
#[derive(Drop)]
pub(crate) enum IdForNode {
    /// No id: only the nodes are made.
    Nothing,

    /// An id, for which the node's set grows where it has no room.
    Id(MatchId),

    /// An id with memory of its own: the set that the node has with it.
    Reserved(MatchId, DenseHashSet),
}

impl IdForNode {
    /// An id for a node with the set `ids`, with memory of its own where the set has no room for it.
    pub(crate) fn reserve(ids: &DenseHashSet, id: MatchId) -> Result<IdForNode, AllocError>
        ensures given { IfOk result (λ reserved. id_in reserved ≡ Some id) }
        ensures fits { IfOk result (λ reserved. Fits reserved (ascending ids.now)) }
    {
        if ids.has_room(id) {
            return Ok(IdForNode::Id(id));
        }
        let mut set = ids.try_clone()?;
        set.insert(id)?;
        Ok(IdForNode::Reserved(id, set))
    }

    /// Adds the id, if there is one, to a node's set. It is never refused where it was reserved for this set, nor where the set has
    /// room for it.
    pub(crate) fn add_to(self, ids: &mut DenseHashSet) -> Result<(), AllocError>
        requires { IsReserved self → Fits self (ascending ids.old) }
        ensures added { OnOk result (SetTakes (id_in self) ids.old ids.new) }
        ensures unchanged { OnErr result (ids.new ≡ ids.old) }
        ensures no_memory { Fits self (ascending ids.old) → IsOk result }
    {
        match self {
            IdForNode::Nothing => Ok(()),
            IdForNode::Id(id) => ids.insert(id),
            IdForNode::Reserved(id, set) => {
                // An equal item of the same list may have brought the id.
                if ids.has_room(id) {
                    return ids.insert(id);
                }
                *ids = set;
                Ok(())
            }
        }
    }
}
