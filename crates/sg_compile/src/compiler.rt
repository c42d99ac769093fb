//! The compiler.
ghost use Rattle.std.specs.Prelude.{◌≡◌, ◌≤◌, ◌<◌, length, IfErr, IfOk};
ghost use Rattle.sg_model.specs.Limits.{most_views};
ghost use Rattle.sg_protocol.specs.Keyring.{Program};
ghost use Rattle.std.specs.List.{All};
ghost use Rattle.sg_protocol.specs.Accepted.{Accepted};
ghost use Rattle.sg_protocol.specs.Evidence.{IsViewTable};
ghost use Rattle.sg_vis.specs.Table.{Shows, views_of};
ghost use Rattle.sg_views.specs.Limits.{FewOpen};
ghost use Rattle.sg_protocol.specs.Texts.{graph_digest, real};
ghost use Rattle.sg_compile.specs.Compiled.{IsCompiled, IsRefused, view_fault};

use crate::check::{CompileFault, check_graph};
use sg_base::{OutOfMemory, Role};
use sg_crypt::graph_digest;
use sg_graph::{Graph, canonical_text};
use sg_plan::targets;
use sg_program::Program;
use sg_views::{ViewFault, views};
use sg_vis::ViewTable;
use std::alloc::Global;

/// The program of a graph for one of its roles, or the first fault: the graph is checked, and then the role's views are listed. It takes
/// memory for the walks of the checks, for the open views, and for the program, which has a graph of its own.
pub fn compile(alloc: Global, graph: &Graph, role: Role) -> Result<Program, CompileFault>
    requires two { 2 ≤ length graph.now.roles }
    requires there { role < length graph.now.roles }
    ensures compiled { IfOk result (IsCompiled graph.now role) }
    ensures refused { IfErr result (IsRefused graph.now role) }
    ensures compiles { (p : Program) → IsCompiled graph.now role p → IfOk result (λ q. q ≡ p) × IfErr result (λ fault. fault ≡ CompileFault.OutOfMemory) }
{
    check_graph(alloc, graph)?;
    compile_accepted(alloc, graph, role)
}

/// The program of an accepted graph for one of its roles, whose views are listed.
pub(crate) fn compile_accepted(
    alloc: Global,
    graph: &Graph,
    role: Role,
) -> Result<Program, CompileFault>
    requires accepted { Accepted graph.now }
    requires there { role < length graph.now.roles }
    ensures compiled { IfOk result (IsCompiled graph.now role) }
    ensures refused { IfErr result (IsRefused graph.now role) }
{
    let views = match views(alloc, graph, role) {
        Ok(views) => views,
        Err(fault) => return Err(of_views(role, fault)),
    };
    match with_views(alloc, graph, role, views) {
        Ok(program) => Ok(program),
        Err(_) => Err(CompileFault::OutOfMemory),
    }
}

// The program of an accepted graph with these views.
fn with_views(
    alloc: Global,
    graph: &Graph,
    role: Role,
    views: ViewTable,
) -> Result<Program, OutOfMemory>
    requires accepted { Accepted graph.now }
    requires there { role < length graph.now.roles }
    requires views { IsViewTable graph.now role (views_of views) }
    requires few { length views ≤ most_views }
    requires few_open { FewOpen graph.now role }
    requires shown { All (λ s. Shows graph.now role s.walk s.view) views }
    ensures { IfOk result (IsCompiled graph.now role) }
{
    // The graph is whole, as its accessors say.
    let _count = graph.roles();
    let targets = targets(alloc, graph)?;
    let digest = digest_of(alloc, graph)?;
    let graph = graph.copy(alloc)?;
    Ok(Program::new(graph, role, digest, views, targets))
}

// The digest of a graph.
fn digest_of(alloc: Global, graph: &Graph) -> Result<[u8; 32], OutOfMemory>
    ensures { IfOk result (λ digest. digest ≡ graph_digest real graph.now) }
{
    let text = canonical_text(alloc, graph)?;
    Ok(graph_digest(text.as_slice()))
}

// A fault of the views of a role.
fn of_views(role: Role, fault: ViewFault) -> CompileFault
    ensures { result ≡ view_fault role fault }
{
    match fault {
        ViewFault::OutOfMemory => CompileFault::OutOfMemory,
        fault => CompileFault::Views { role, fault },
    }
}
