//! Programs together, found without a scan.
ghost use Rattle.std.specs.Cmp.Rules.{hashing};
ghost use Rattle.std.specs.Map.{lookup};
ghost use Rattle.std.specs.Option.{option_or};
ghost use Rattle.std.specs.Prelude.{◌≡◌, ◌<◌, ◌==◌, ◌↔◌, ◌&&◌, ◌++◌, [], ◌∷◌, ℕ, List, bytes_eq, false, find, if◌then◌else◌, length, option_copied, vec_len, vec_capacity, IfErr, IsOk, IsTrue, OnErr, OnOk};
ghost use Rattle.std.specs.List.{list_any};
ghost use Rattle.indexmap.specs.IndexMap.{spare};
ghost use Rattle.indexmap.specs.IndexSet.{spare as set_spare};
ghost use Rattle.std.proofs.Common.{rules};
ghost use Rattle.sg_protocol.specs.Graph.{Name};
ghost use Rattle.sg_program.specs.Together.{clashes, is_for, is_key, is_named, is_pair};

use crate::Program;
use indexmap::{IndexMap, IndexSet};
use sg_base::{Name, OutOfMemory, Role};
use std::alloc::Global;
use std::hash::{Hash, Hasher};
use std::marker::Model;
use thiserror::Error;

/// Programs in the order in which they were added. Those of one graph name have one digest, each for a different role. A clause sees their
/// list.
#[derive(Drop)]
pub struct Programs {
    list: Vec<Program>,
    names: IndexMap<Name, usize>,
    parts: IndexSet<(Name, Role)>,
    digests: IndexMap<ProgramKey, usize>,
}

// What a frame looks a program up by: its graph's digest, and its role.
#[derive(Clone, Copy, PartialEq, Eq)]
struct ProgramKey {
    digest: [u8; 32],
    role: Role,
}

// The digest is hashed in one piece.
impl Hash for ProgramKey {
    ghost hash_input = { λ k. k.digest ∷ (k.role ∷ []) ∷ [] };

    ghost respects_eq = { Prim.search (hashing, rules) };

    fn hash<H: Hasher>(&self, state: &mut H) {
        state.write(&self.digest);
        state.write_u8(self.role.0);
    }
}

impl Model for Programs {
    ghost use Rattle.std.specs.Prelude.{List};
    ghost use Rattle.sg_protocol.specs.Keyring.{Program};

    ghost Value = { List Program };

    ghost use Rattle.sg_program.specs.Together.{HoldsPrograms};

    ghost view = { λ s. s.list.items };

    ghost invariant = { HoldsPrograms };
}

/// Why a program can't be added.
#[derive(Debug, Clone, Copy, PartialEq, Eq, Error)]
pub enum AddProgramFault {
    /// A program of the same graph name is there, with the same role or with another digest.
    #[error("twice")]
    Twice,
    /// Out of memory.
    #[error("out of memory")]
    OutOfMemory,
}

impl Programs {
    /// The empty list. It takes no memory.
    pub fn new(alloc: Global) -> Programs
        ensures { result ≡ [] }
    {
        Programs {
            list: Vec::new(alloc),
            names: IndexMap::new(alloc),
            parts: IndexSet::new(alloc),
            digests: IndexMap::new(alloc),
        }
    }

    /// Adds a program as the last one. Refused if a program of its graph name is there with the same role or with another
    /// digest, or if memory runs out. After a refusal the programs are as before, and the program comes back.
    pub fn add(&mut self, program: Program) -> Result<(), (Program, AddProgramFault)>
        ensures twice { (result ≡ Err (program, AddProgramFault.Twice)) ↔ IsTrue (list_any (clashes program) self.old) }
        ensures added { OnOk result (self.new ≡ self.old ++ program ∷ []) }
        ensures err { OnErr result (self.new ≡ self.old) }
        ensures back { IfErr result (λ e. e.0 ≡ program) }
    {
        if self.has_clash(&program) {
            return Err((program, AddProgramFault::Twice));
        }
        match self.push(program) {
            Ok(()) => Ok(()),
            Err(program) => Err((program, AddProgramFault::OutOfMemory)),
        }
    }

    /// Adds a program that clashes with none. If memory runs out, the programs are as before, and the program comes back.
    pub fn push(&mut self, program: Program) -> Result<(), Program>
        requires { list_any (clashes program) self.old ≡ false }
        ensures added { OnOk result (self.new ≡ self.old ++ program ∷ []) }
        ensures err { OnErr result (self.new ≡ self.old) }
        ensures back { IfErr result (λ p. p ≡ program) }
    {
        if reserve_one(
            &mut self.list,
            &mut self.names,
            &mut self.parts,
            &mut self.digests,
        )
        .is_err()
        {
            return Err(program);
        }
        let index = self.list.len();
        let name = program.graph().name();
        let role = program.role();
        let key = ProgramKey {
            digest: *program.digest(),
            role,
        };
        put_name(&mut self.names, name, index);
        put_part(&mut self.parts, name, role);
        put_key(&mut self.digests, key, index);
        put_last(&mut self.list, program);
        Ok(())
    }

    // A program of the same graph name is there, with the same role or with another digest.
    fn has_clash(&self, program: &Program) -> bool
        ensures { result ≡ list_any (clashes program.now) self.now }
    {
        let name = program.graph().name();
        match self.by_name(&name) {
            None => false,
            Some(first) => {
                program.digest() != first.digest() || has_part(&self.parts, name, program.role())
            }
        }
    }

    /// The programs in order. It takes no memory.
    pub fn as_slice(&self) -> &[Program]
        ensures { result.now ≡ self.now }
    {
        self.list.as_slice()
    }

    /// The first program of a graph with this digest for this role. It takes no memory.
    pub fn find(&self, digest: &[u8; 32], role: Role) -> Option<&Program>
        ensures { option_copied result ≡ find (is_for digest.now role) self.now }
    {
        let key = ProgramKey {
            digest: *digest,
            role,
        };
        match self.digests.get(&key) {
            Some(index) => Some(&self.list[*index]),
            None => None,
        }
    }

    /// The first program of a graph of this name. It takes no memory.
    pub fn by_name(&self, graph: &Name) -> Option<&Program>
        ensures { option_copied result ≡ find (is_named graph.now) self.now }
    {
        match self.names.get(graph) {
            Some(index) => Some(&self.list[*index]),
            None => None,
        }
    }
}

// Makes room for one more of each.
fn reserve_one(
    list: &mut Vec<Program>,
    names: &mut IndexMap<Name, usize>,
    parts: &mut IndexSet<(Name, Role)>,
    digests: &mut IndexMap<ProgramKey, usize>,
) -> Result<(), OutOfMemory>
    ensures list { list.new.items ≡ list.old.items }
    ensures names { names.new.entries ≡ names.old.entries }
    ensures parts { parts.new.keys ≡ parts.old.keys }
    ensures digests { digests.new.entries ≡ digests.old.entries }
    ensures room { OnOk result ((vec_len list.new < vec_capacity list.new) × (0 < spare names.new) × (0 < set_spare parts.new) × (0 < spare digests.new)) }
{
    list.reserve(1)?;
    names.reserve(1)?;
    parts.reserve(1)?;
    digests.reserve(1)
}

// Keeps the index of a name, if it has none.
fn put_name(names: &mut IndexMap<Name, usize>, name: Name, index: usize)
    requires { 0 < spare names.old }
    ensures { (n : List ℕ) → lookup (bytes_eq n) names.new.entries ≡ option_or (lookup (bytes_eq n) names.old.entries) (if bytes_eq n name then Some index else None) }
{
    if !names.contains_key(&name) {
        names.insert(name, index).unwrap();
    }
}

// Keeps the index of a key, if it has none.
fn put_key(digests: &mut IndexMap<ProgramKey, usize>, key: ProgramKey, index: usize)
    requires { 0 < spare digests.old }
    ensures { (d : List ℕ) (r : ℕ) → let test = is_key d r in
        lookup test digests.new.entries ≡ option_or (lookup test digests.old.entries) (if test key then Some index else None) }
{
    if !digests.contains_key(&key) {
        digests.insert(key, index).unwrap();
    }
}

// The name and the role are there.
fn has_part(parts: &IndexSet<(Name, Role)>, name: Name, role: Role) -> bool
    ensures { result ≡ list_any (is_pair name role) parts.now.keys }
{
    parts.contains(&(name, role))
}

// Puts a name and a role that aren't there at the end.
fn put_part(parts: &mut IndexSet<(Name, Role)>, name: Name, role: Role)
    requires room { 0 < set_spare parts.old }
    requires absent { list_any (is_pair name role) parts.old.keys ≡ false }
    ensures { parts.new.keys ≡ parts.old.keys ++ (name, role) ∷ [] }
{
    parts.insert((name, role)).unwrap();
}

// Puts a program at the end.
fn put_last(list: &mut Vec<Program>, program: Program)
    requires { vec_len list.old < vec_capacity list.old }
    ensures { list.new.items ≡ list.old.items ++ program ∷ [] }
{
    list.push(program).unwrap();
}
