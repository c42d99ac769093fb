//! The schedule of all that is declared.
ghost use Rattle.std.specs.Prelude.{◌≡◌, length, map, ◌++◌, IfOk, IsErr, MatchResult};
ghost use Rattle.sg_protocol.specs.Texts.{real, graph_digest};
ghost use Rattle.sg_sched.specs.Format.Items.{graphs_declared, declared};
ghost use Rattle.sg_sched.specs.Format.StepsHeld.{step_of};
ghost use Rattle.sg_sched.specs.Pair.{graphs_of};
ghost use Rattle.sg_sched_text.specs.Holding.{HasCast};
ghost use Rattle.sg_sched_text.specs.Sessions.{session_of};
ghost use Rattle.sg_sched_text.specs.Whole.{schedule_declared, declared_by, HaveCasts};

use crate::declarations::Declared;
use crate::sessions::{Like, Sessions};
use sg_base::{Name, OutOfMemory, Seq};
use sg_crypt::Cast;
use sg_graph::Graph;
use sg_sched::cast::{digest_of, nonce_bytes};
use sg_sched::pair::Pair;
use sg_sched::{NamedSession, PairKey, Schedule, Step};
use std::alloc::Global;

impl Declared {
    /// The schedule of all that is declared.
    pub fn schedule(self) -> Result<Schedule, OutOfMemory>
        requires { HaveCasts (length (graphs_declared self)) self.sessions }
        ensures { IfOk result (λ s. s ≡ schedule_declared real self) }
    {
        let listed = self.listed();
        self.schedule_of(listed)
    }

    // The sessions with their casts, and the honest principals.
    fn listed(&self) -> Result<(Seq<NamedSession>, Seq<Name>), OutOfMemory>
        requires { HaveCasts (length (graphs_declared self.now)) self.now.sessions }
        ensures { IfOk result (λ l. (l.0 ≡ map (declared real (graphs_declared self.now)) self.now.sessions) × (l.1 ≡ self.now.honest)) }
    {
        let sessions = self.declared()?;
        let honest = self.honest.to_list(self.alloc)?;
        Ok((sessions, honest))
    }

    // The schedule of these sessions and honest principals, if there was memory for them, and of the rest that is declared.
    fn schedule_of(
        self,
        listed: Result<(Seq<NamedSession>, Seq<Name>), OutOfMemory>,
    ) -> Result<Schedule, OutOfMemory>
        requires { IfOk listed (λ l. (l.0 ≡ map (declared real (graphs_declared self)) self.sessions) × (l.1 ≡ self.honest)) }
        ensures { IfOk result (λ s. s ≡ schedule_declared real self) }
    {
        let Declared {
            alloc,
            group: _,
            blocks,
            pair,
            honest: _,
            keys,
            sessions: _,
            steps,
        } = self;
        let graphs = with_pair(alloc, blocks.into_list(), pair);
        together(graphs, listed, keys.into_list(), steps)
    }

    // The sessions with their casts.
    fn declared(&self) -> Result<Seq<NamedSession>, OutOfMemory>
        requires { HaveCasts (length (graphs_declared self.now)) self.now.sessions }
        ensures { IfOk result (λ found. found ≡ map (declared real (graphs_declared self.now)) self.now.sessions) }
    {
        let digests = self.digests()?;
        with_casts(self.alloc, &self.sessions, digests.as_slice())
    }

    // The digest of each graph.
    fn digests(&self) -> Result<Seq<[u8; 32]>, OutOfMemory>
        ensures { IfOk result (λ digests. digests ≡ map (graph_digest real) (graphs_declared self.now)) }
    {
        let mut found = digests(self.alloc, self.blocks.as_slice())?;
        if let Some(graph) = self.pair.graph() {
            found.push(digest_of(self.alloc, graph)?)?;
        }
        Ok(found)
    }
}

// A schedule of these parts, if there was memory for the graphs, and for the sessions and the honest principals.
fn together(
    graphs: Result<Seq<Graph>, OutOfMemory>,
    listed: Result<(Seq<NamedSession>, Seq<Name>), OutOfMemory>,
    keys: Seq<PairKey>,
    steps: Seq<Step>,
) -> Result<Schedule, OutOfMemory>
    ensures { MatchResult graphs (λ gs. MatchResult listed (λ l. IfOk result (λ s. s
        ≡ record { graphs = gs; honest = l.1; keys = keys; sessions = l.0; steps = map step_of steps })) (λ _. IsErr result)) (λ _. IsErr result) }
{
    match (graphs, listed) {
        (Ok(graphs), Ok((sessions, honest))) => Ok(Schedule {
            graphs,
            honest,
            keys,
            sessions,
            steps,
        }),
        (Err(fault), _) => Err(fault),
        (_, Err(fault)) => Err(fault),
    }
}

// The graphs of the blocks, and after them that of the edge lines, if there is one.
fn with_pair(alloc: Global, blocks: Seq<Graph>, pair: Pair) -> Result<Seq<Graph>, OutOfMemory>
    ensures { IfOk result (λ graphs. graphs ≡ blocks ++ graphs_of pair) }
{
    let mut graphs = blocks.into_vec();
    let mut last = pair.into_list(alloc)?.into_vec();
    graphs.append(&mut last)?;
    Ok(Seq::from_vec(graphs))
}

// The digest of each graph.
fn digests(alloc: Global, graphs: &[Graph]) -> Result<Seq<[u8; 32]>, OutOfMemory>
    ensures { IfOk result (λ digests. digests ≡ map (graph_digest real) graphs.now) }
{
    let mut found = Seq::new(alloc);
    for graph in graphs {
        found.push(digest_of(alloc, graph)?)?;
    }
    Ok(found)
}

// The sessions with their casts.
fn with_casts(
    alloc: Global,
    sessions: &Sessions,
    digests: &[[u8; 32]],
) -> Result<Seq<NamedSession>, OutOfMemory>
    requires { HaveCasts (length digests.now) sessions.now }
    ensures { IfOk result (λ found. found ≡ map (declared_by digests.now) sessions.now) }
{
    let mut found = Seq::new(alloc);
    for index in 0..sessions.len() {
        let (name, like) = sessions.at(index);
        found.push(with_cast(name, like, digests))?;
    }
    Ok(found)
}

// A session with its cast.
fn with_cast(name: Name, like: &Like, digests: &[[u8; 32]]) -> NamedSession
    requires { HasCast (length digests.now) (session_of name like.now) }
    ensures { result ≡ declared_by digests.now (session_of name like.now) }
{
    let digest = digests[like.graph];
    match Cast::new(
        like.version,
        digest,
        nonce_bytes(like.nonce),
        like.names.as_slice(),
    ) {
        Some(cast) => NamedSession { name, cast },
        None => unreachable!(),
    }
}
