//! Which casts a node takes part in, and in which programs.
ghost use Rattle.std.specs.Prelude.{◌≡◌, ◌&&◌, bytes_eq, false, length, nat_lt, Some};
ghost use Rattle.std.specs.Option.{option_copied, option_map_or};
ghost use Rattle.sg_model.specs.Lists.{all_differ, has_text};
ghost use Rattle.sg_model.specs.Shape.{role_at};
ghost use Rattle.sg_protocol.specs.Graph.{shape};
ghost use Rattle.sg_protocol.specs.Node.{is_cast, program_for, starter, starts};
ghost use Rattle.sg_protocol.specs.Session.{principal};

use sg_base::{Name, NodeId, Role};
use sg_crypt::Cast;
use sg_graph::Graph;
use sg_keys::Keyring;
use sg_program::{Program, Programs};

/// Whether the cast has as many principals as the graph has roles, all different, and the role's is the keyring's own. It takes no memory.
pub(crate) fn is_cast(keys: &Keyring, graph: &Graph, cast: &Cast, role: Role) -> bool
    ensures { result ≡ is_cast keys.now graph.now cast.now role }
{
    cast.count() == graph.roles() && all_differ(cast.names()) && is_mine(keys, cast, role)
}

// The role is one of the cast, and its principal is the keyring's own.
fn is_mine(keys: &Keyring, cast: &Cast, role: Role) -> bool
    ensures { result ≡ nat_lt role (length cast.now.names) && bytes_eq (principal cast.now role) keys.now.me }
{
    match cast.of(role) {
        Some(name) => name.as_bytes() == keys.me().as_bytes(),
        None => false,
    }
}

// No name stands there twice.
fn all_differ(names: &[Name]) -> bool
    ensures { result ≡ all_differ names.now }
{
    for at in 0..names.len() {
        if has_name(&names[at + 1..], &names[at]) {
            return false;
        }
    }
    true
}

// The name is among these.
#[tactic(auto, using(crate::proofs::More::text_here, crate::proofs::More::text_next))]
fn has_name(names: &[Name], name: &Name) -> bool
    ensures { result ≡ has_text name.now names.now }
{
    for other in names {
        if name.as_bytes() == other.as_bytes() {
            return true;
        }
    }
    false
}

/// The program of a graph with this digest for the role that starts it. It takes no memory.
pub(crate) fn first_starter<'p>(programs: &'p Programs, digest: &[u8; 32]) -> Option<&'p Program>
    ensures { option_copied result ≡ starter programs.now digest.now }
{
    for program in programs.as_slice() {
        if program.digest() == digest && is_starting(programs, digest, program) {
            return Some(program);
        }
    }
    None
}

/// What is known of the program of a graph for the role that starts it: it is the first one with its digest and role.
pub(crate) fn facts_of_starter(programs: &Programs, digest: &[u8; 32], program: &Program)
    requires { starter programs.now digest.now ≡ Some program.now }
    ensures first { program_for programs.now digest.now program.now.role ≡ Some program.now }
    ensures starts { role_at (shape program.now.graph) 0 ≡ program.now.role }
    ensures digest { program.now.digest ≡ digest.now }
{}

// The first program of a graph with this digest for the role of this one starts its graph.
fn is_starting(programs: &Programs, digest: &[u8; 32], program: &Program) -> bool
    ensures { result ≡ option_map_or starts (program_for programs.now digest.now program.now.role) false }
{
    match program_for(programs, digest, program.role()) {
        Some(first) => starts(first),
        None => false,
    }
}

// The program's role is that of the start node.
fn starts(program: &Program) -> bool
    ensures { result ≡ starts program.now }
{
    program.role() == program.graph().node_role(NodeId(0))
}

/// The first program of a graph with this digest for a role. It takes no memory.
pub(crate) fn program_for<'p>(
    programs: &'p Programs,
    digest: &[u8; 32],
    role: Role,
) -> Option<&'p Program>
    ensures { option_copied result ≡ program_for programs.now digest.now role }
{
    programs.find(digest, role)
}
