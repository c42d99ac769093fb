//! The nodes of the honest principals.
ghost use Rattle.std.specs.Prelude.{◌≡◌, ◌++◌, ◌∷◌, [], false, true, map, slice_get, Some, IfOk, MatchOption, OnOk};
ghost use Rattle.sg_model.specs.Lists.{all_differ, has_text};
ghost use Rattle.sg_protocol.specs.NodeStates.{NodeState, new_state};
ghost use Rattle.sg_protocol.specs.World.{keyring_of};
ghost use Rattle.sg_setting.specs.Pairs.{ArePairs};

use indexmap::IndexMap;
use sg_base::{Name, OutOfMemory};
use sg_node::Node;
use sg_program::Programs;
use sg_sched::PairKey;
use sg_setting::keyring;
use std::alloc::Global;

/// A node for each of these principals, in order, with the keys of its pairs.
pub(crate) fn nodes_of<'p>(
    alloc: Global,
    programs: &'p Programs,
    keys: &[PairKey],
    honest: &[Name],
) -> Result<IndexMap<Name, Node<'p>>, OutOfMemory>
    requires pairs { ArePairs keys.now }
    requires different { all_differ honest.now ≡ true }
    ensures { IfOk result (λ n. n.entries ≡ map (λ me. (me, new_state (keyring_of keys.now me) programs.entry.now [])) honest.now) }
{
    let mut nodes = IndexMap::new(alloc);
    for me in honest {
        add_node(alloc, &mut nodes, *me, programs, keys)?;
    }
    Ok(nodes)
}

// Puts a node of a principal that has none, with the keys of its pairs, after the others.
fn add_node<'p>(
    alloc: Global,
    nodes: &mut IndexMap<Name, Node<'p>>,
    me: Name,
    programs: &'p Programs,
    keys: &[PairKey],
) -> Result<(), OutOfMemory>
    requires pairs { ArePairs keys.now }
    requires absent { has_text me (map (λ n. n.0) nodes.old.entries) ≡ false }
    ensures { OnOk result (nodes.new.entries ≡ nodes.old.entries ++ (me, new_state (keyring_of keys.now me) programs.entry.now []) ∷ []) }
{
    let ring = keyring(alloc, me, keys)?;
    let node = Node::new(alloc, ring, programs)?;
    nodes.insert(me, node)?;
    Ok(())
}

/// The index of a principal's node. It takes no memory.
pub(crate) fn index_of<'p>(nodes: &IndexMap<Name, Node<'p>>, who: &Name) -> Option<usize>
    ensures { MatchOption result
        (has_text who.now (map (λ n. n.0) nodes.now.entries) ≡ false)
        (λ i. (state : NodeState) × (slice_get nodes.now.entries i ≡ Some (who.now, state))) }
{
    nodes.get_index_of(who)
}
