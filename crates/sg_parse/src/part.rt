//! Parts: graphs into which graphs that stand before them are put.
use sg_base::{Name, NodeId, Role, Seq};
use sg_graph::Graph;
use std::marker::Model;

/// Where a part that stands before is put into a graph: between two nodes of the graph, with roles of the graph for the roles of the part.
#[derive(Drop)]
pub struct Use {
    /// The name of the use, which no other use of its part has.
    pub name: Name,
    /// The number of the part that is used, counted from 0 in the order of the text.
    pub part: usize,
    /// The node for the start of the part that is used.
    pub from: NodeId,
    /// The node for the end of the part that is used.
    pub to: NodeId,
    /// Different roles, one or more, in the order of the roles of the part that is used.
    pub roles: Seq<Role>,
}

impl Model for Use {
    ghost use Rattle.sg_parse.specs.Parts.{Use};

    ghost Value = { Use };

    ghost view = { λ u. record { name = u.name; part = u.part; from = u.from; to = u.to; roles = u.roles } };
}

/// A graph and its uses of parts that stand before it, in the order of the text.
#[derive(Drop)]
pub struct Part {
    /// The graph without what is put into it. Its name is the part's.
    pub graph: Graph,
    /// Its uses of parts before it.
    pub uses: Seq<Use>,
}

impl Model for Part {
    ghost use Rattle.sg_parse.specs.Parts.{Part};

    ghost Value = { Part };

    ghost view = { λ p. record { graph = p.graph; uses = p.uses } };
}
