//! Programs.
ghost use Rattle.std.specs.Prelude.{◌≡◌, All};
ghost use Rattle.sg_protocol.specs.IsSchedule.{IsProgram};
ghost use Rattle.sg_protocol.specs.Texts.{real};
ghost use Rattle.sg_vis.specs.Table.{Shows, views_of};

use crate::TargetTable;
use sg_base::Role;
use sg_graph::Graph;
use sg_vis::ViewTable;
use std::marker::Model;

/// An accepted graph, compiled for one of its roles: the graph's digest, the table of the role's views, and for each edge the roles that
/// must be able to check it later.
#[derive(Drop)]
pub struct Program {
    graph: Graph,
    role: Role,
    digest: [u8; 32],
    views: ViewTable,
    targets: TargetTable,
}

impl Model for Program {
    ghost use Rattle.sg_protocol.specs.Keyring.{Program};

    ghost Value = { Program };

    ghost use Rattle.sg_program.specs.Model.{program_of};
    ghost use Rattle.sg_program.specs.Invariant.{HoldsProgram};

    ghost view = { program_of };

    ghost invariant = { HoldsProgram };
}

impl Program {
    /// The program of an accepted graph for one of its roles, of its parts. It takes no memory.
    pub fn new(
        graph: Graph,
        role: Role,
        digest: [u8; 32],
        views: ViewTable,
        targets: TargetTable,
    ) -> Program
        requires program { IsProgram real (record { graph = graph; role = role; digest = digest; views = views_of views; targets = targets }) }
        requires shown { All (λ s. Shows graph role s.walk s.view) views }
        ensures { result ≡ record { graph = graph; role = role; digest = digest; views = views_of views; targets = targets } }
    {
        Program {
            graph,
            role,
            digest,
            views,
            targets,
        }
    }

    /// The graph. It takes no memory.
    pub fn graph(&self) -> &Graph
        ensures graph { result.now ≡ self.now.graph }
        ensures program { IsProgram real self.now }
    {
        &self.graph
    }

    /// The role. It takes no memory.
    pub fn role(&self) -> Role
        ensures role { result ≡ self.now.role }
        ensures program { IsProgram real self.now }
    {
        self.role
    }

    /// The graph's digest. It takes no memory.
    pub fn digest(&self) -> &[u8; 32]
        ensures digest { result.now ≡ self.now.digest }
        ensures program { IsProgram real self.now }
    {
        &self.digest
    }

    /// The table of the role's views. Each walk in it shows its view. It takes no memory.
    pub fn views(&self) -> &ViewTable
        ensures views { views_of result.now ≡ self.now.views }
        ensures shown { All (λ s. Shows self.now.graph self.now.role s.walk s.view) result.now }
        ensures program { IsProgram real self.now }
    {
        &self.views
    }

    /// The targets of each edge. It takes no memory.
    pub fn targets(&self) -> &TargetTable
        ensures targets { result.now ≡ self.now.targets }
        ensures program { IsProgram real self.now }
    {
        &self.targets
    }
}
