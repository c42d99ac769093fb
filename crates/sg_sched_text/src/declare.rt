//! What lines declare: edges, honest principals, keys and sessions.
ghost use Rattle.std.specs.Prelude.{◌≡◌, ◌<◌, ◌==◌, true, false, codes, length, slice_get, option_and_then, IfSome, IsTrue, OnOk};
ghost use Rattle.std.specs.Option.{option_map_or};
ghost use Rattle.sg_model.specs.Lists.{has_text};
ghost use Rattle.sg_model.specs.Names.{reserved};
ghost use Rattle.sg_sched.specs.Format.Values.{is_hex_of, bytes_of};
ghost use Rattle.sg_sched.specs.Format.Items.{GraphItem, graphs_declared, graph_names};
ghost use Rattle.sg_sched_text.specs.Adding.{add_edge, add_honest, add_key, add_session};
ghost use Rattle.sg_sched_text.specs.Holding.{HasRoles};
ghost use Rattle.sg_sched_text.specs.Plus.{plus};
ghost use Rattle.sg_sched_text.specs.TakingLines.{Takes};

use crate::declarations::Declared;
use crate::sessions::Like;
use crate::stop::Stop;
use sg_base::{Name, OutOfMemory, read_hex};
use sg_graph::Graph;
use sg_parse::NameSet;
use sg_sched::node_name::name_of;
use sg_sched::{Kind, PairKey};

const MOST_EDGES: usize = 512;

const MOST_SESSIONS: usize = 100_000;

impl Declared {
    /// The graph of a block, of a new name.
    pub fn add_block(&mut self, graph: Graph) -> Result<(), OutOfMemory>
        requires new_name { has_text graph.name (graph_names self.old.blocks) ≡ false }
        requires roles { HasRoles graph }
        ensures { OnOk result (self.new ≡ plus self.old (GraphItem graph)) }
    {
        self.blocks.add(graph)
    }

    /// An edge of the graph `pair`.
    #[tactic(auto, unfolding(crate::specs::Adding::add_edge))]
    pub fn add_edge(&mut self, label: Name, from: u8, to: u8) -> Result<(), Stop>
        requires { has_text label reserved ≡ false }
        ensures { Takes (add_edge self.old label from to) self.new result }
    {
        if self.group > 0 {
            return Err(Stop::Wrong(Kind::Form));
        }
        if self.pair.len() >= MOST_EDGES {
            return Err(Stop::Wrong(Kind::Form));
        }
        if self.pair.has(&label) {
            return Err(Stop::Wrong(Kind::Twice));
        }
        if self.blocks.has(&pair_name()) {
            return Err(Stop::Wrong(Kind::Twice));
        }
        self.pair.add(self.alloc, label, from, to)?;
        Ok(())
    }

    /// An honest principal.
    #[tactic(auto, unfolding(crate::specs::Adding::add_honest))]
    pub fn add_honest(&mut self, who: Name) -> Result<(), Stop>
        ensures { Takes (add_honest self.old who) self.new result }
    {
        if self.group > 1 {
            return Err(Stop::Wrong(Kind::Form));
        }
        if self.honest.has(&who) {
            return Err(Stop::Wrong(Kind::Twice));
        }
        self.honest.add(who)?;
        self.group = self.group.max(1);
        Ok(())
    }

    /// The key of two principals.
    #[tactic(auto, unfolding(crate::specs::Adding::add_key))]
    pub fn add_key(&mut self, one: Name, two: Name, digits: &[u8]) -> Result<(), Stop>
        requires { IsTrue (is_hex_of 32 digits.now) }
        ensures { Takes (add_key self.old one two digits.now) self.new result }
    {
        if self.group > 2 {
            return Err(Stop::Wrong(Kind::Form));
        }
        if self.keys.has_pair(&one, &two) {
            return Err(Stop::Wrong(Kind::Twice));
        }
        let key = key_of(digits);
        self.keys.add(PairKey { one, two, key })?;
        self.group = self.group.max(2);
        Ok(())
    }

    /// A session of a declared graph.
    #[tactic(auto, unfolding(crate::specs::Adding::add_session))]
    pub fn add_session(
        &mut self,
        name: Name,
        graph: &Name,
        nonce: u64,
        names: &NameSet,
        version: u8,
    ) -> Result<(), Stop>
        ensures { Takes (add_session self.old name graph.now nonce names.now version) self.new result }
    {
        if self.group > 3 {
            return Err(Stop::Wrong(Kind::Form));
        }
        let index = self.graph_index(graph);
        if !self.fits(index, names) {
            return Err(Stop::Wrong(Kind::Form));
        }
        if self.sessions.len() >= MOST_SESSIONS {
            return Err(Stop::Wrong(Kind::TooManySessions));
        }
        let Some(index) = index else {
            return Err(Stop::Wrong(Kind::Unknown));
        };
        if self.sessions.has(&name) {
            return Err(Stop::Wrong(Kind::Twice));
        }
        let like = Like {
            graph: index,
            nonce,
            names: names.to_list(self.alloc)?.into_vec(),
            version,
        };
        if self.sessions.has_like(&like) {
            drop(like);
            return Err(Stop::Wrong(Kind::Twice));
        }
        self.sessions.add(name, like)?;
        self.group = self.group.max(3);
        Ok(())
    }

    // Whether there are as many principals as the graph at the index has roles, or no such graph.
    fn fits(&self, index: Option<usize>, names: &NameSet) -> bool
        requires { IfSome index (λ i. i < length (graphs_declared self.now)) }
        ensures { result ≡ option_map_or (λ g. length names.now == length g.roles) (option_and_then (slice_get (graphs_declared self.now)) index) true }
    {
        let Some(index) = index else {
            return true;
        };
        match self.graph_at(index) {
            Some(graph) => names.as_slice().len() == graph.roles() as usize,
            None => true,
        }
    }
}

fn pair_name() -> Name
    ensures { result ≡ codes "pair" }
{
    name_of(b"pair")
}

// The key of 64 digits.
fn key_of(digits: &[u8]) -> [u8; 32]
    requires { IsTrue (is_hex_of 32 digits.now) }
    ensures { result ≡ bytes_of digits.now }
{
    match read_hex(digits) {
        Some(key) => key,
        None => unreachable!(),
    }
}
