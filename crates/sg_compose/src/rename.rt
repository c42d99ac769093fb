//! The names, roles, variables and nodes that a use gives to those of the graph that it uses.
ghost use Rattle.std.specs.Prelude.{◌≡◌, ℕ, ◌+◌, ◌-◌, ◌<◌, ◌≤◌, false, IfErr, IfOk, IsTrue};
ghost use Rattle.sg_model.specs.Lists.{has_text};
ghost use Rattle.sg_model.specs.Names.{is_name, reserved};
ghost use Rattle.sg_protocol.specs.Graph.{AreNumbers};
ghost use Rattle.sg_compose.specs.Expansion.{inner_name, is_inside, is_long, player, players, shifted, replaced};

use crate::fault::ComposeFault;
use sg_base::{ByteOut, Name, NodeId, Role, RoleSet, Var, VarSet};
use sg_parse::Use;
use std::alloc::Global;

// The name is too long with the use's in front.
pub fn is_long(used: &Use, name: &Name) -> bool
    ensures { result ≡ is_long (inner_name used.now name.now) }
{
    // Both are names, so their lengths are small.
    used.name.as_bytes().len() + 1 + name.as_bytes().len() > 32
}

// The name with the use's in front, which isn't too long.
pub fn inner_name(alloc: Global, used: &Use, name: &Name) -> Result<Name, ComposeFault>
    requires { is_long (inner_name used.now name.now) ≡ false }
    ensures name { IfOk result (λ n. n ≡ inner_name used.now name.now) }
    ensures free { IfOk result (λ n. has_text n reserved ≡ false) }
    ensures memory { IfErr result (λ e. e ≡ ComposeFault.OutOfMemory) }
{
    let Ok(bytes) = inner_bytes(alloc, used, name) else {
        return Err(ComposeFault::OutOfMemory);
    };
    match Name::new(bytes.as_slice()) {
        Some(name) => Ok(name),
        None => unreachable!(),
    }
}

fn inner_bytes(alloc: Global, used: &Use, name: &Name) -> Result<Vec<u8>, sg_base::OutOfMemory>
    requires { is_long (inner_name used.now name.now) ≡ false }
    ensures bytes { IfOk result (λ bytes. bytes.items ≡ inner_name used.now name.now) }
    ensures name { IfOk result (λ bytes. IsTrue (is_name bytes.items)) }
{
    let mut out = ByteOut::new(alloc);
    out.bytes(used.name.as_bytes())?;
    out.u8(b'_')?;
    out.bytes(name.as_bytes())?;
    Ok(out.done())
}

// The node is neither start nor end.
pub fn is_inside(end: NodeId, node: NodeId) -> bool
    ensures { result ≡ is_inside end node }
{
    node.0 != 0 && node.0 != end.0
}

// The role that plays a role.
pub fn player(used: &Use, role: Role) -> Role
    ensures { result ≡ player used.now role }
{
    match used.roles.as_slice().get(role.0 as usize) {
        Some(player) => *player,
        None => Role(0),
    }
}

// The roles that play these roles.
pub fn players(used: &Use, roles: RoleSet) -> RoleSet
    requires roles { AreNumbers 16 roles }
    requires players { (r : ℕ) → player used.now r < 16 }
    ensures { result ≡ players used.now roles }
{
    let mut found = RoleSet::empty();
    for number in 0..16u8 {
        let role = Role(number);
        if roles.has(role) {
            found = found.with(player(used, role));
        }
    }
    found
}

// The variables, if `count` are there before.
pub fn shifted(count: u8, vars: VarSet) -> VarSet
    requires { AreNumbers (32 - count) vars }
    ensures { result ≡ shifted count vars }
{
    let mut found = VarSet::empty();
    for number in 0..32u8 {
        if vars.has(Var(number)) {
            found = found.with(Var(count + number));
        }
    }
    found
}

// The index of a node, if `count` nodes are there before.
pub fn replaced(count: u16, used: &Use, end: NodeId, node: NodeId) -> NodeId
    requires count { count ≤ 256 }
    requires end { 0 < end }
    requires node { node < 256 }
    ensures { result ≡ replaced count used.now.from used.now.to end node }
{
    if node.0 == 0 {
        used.from
    } else if node.0 == end.0 {
        used.to
    } else if node.0 < end.0 {
        NodeId(count + (node.0 - 1))
    } else {
        NodeId(count + (node.0 - 2))
    }
}
