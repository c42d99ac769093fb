//! One principal who serves an application.
ghost use Rattle.std.specs.Prelude.{◌≡◌, ℕ, ◌-◌, List, [], None, IfErr, IfOk, is_some, slice_get, unwrap_or};
ghost use Rattle.std.specs.Option.{option_copied};
ghost use Rattle.sg_again.specs.LastFrames.{no_frames};
ghost use Rattle.sg_protocol.specs.NodeStates.{new_state};

use crate::ServeFault;
use crate::graphs::Graphs;
use sg_again::LastFrames;
use sg_base::{Seq, Sid};
use sg_graph::Graph;
use sg_keys::Keyring;
use sg_ledger::Ledger;
use sg_node::Node;
use sg_play::Player;
use sg_program::Programs;
use std::alloc::Global;

// One principal who serves an application: its player, the graph of each session that had an event, the last frames of sessions, and the
// ledger of its joins, if it has one.
#[derive(Drop)]
pub(crate) struct Server<'p> {
    pub(crate) alloc: Global,
    pub(crate) player: Player<'p>,
    pub(crate) graphs: Graphs<'p>,
    pub(crate) last: LastFrames,
    pub(crate) ledger: Option<Ledger>,
}

impl<'p> Server<'p> {
    ghost use Rattle.sg_play.specs.Played.{Play, beginning};
    ghost use Rattle.sg_serve.specs.Served.{joins_kept};
    ghost use Rattle.sg_serve.specs.Serving.{is_live, sids_of};
    ghost use Rattle.sg_serve.specs.Representation.{RepresentsServing};
    ghost use Rattle.sg_play.specs.Representation.{RepresentsPlay};

    // A server whose node was made with these keys and programs, and with the ledger's joins, and was not asked anything yet.
    pub fn new(
        alloc: Global,
        node: Node<'p>,
        keys: &'p Keyring,
        programs: &'p Programs,
        ledger: Option<Ledger>,
    ) -> Result<Server<'p>, ServeFault>
        requires { node ≡ new_state keys.now programs.now (joins_kept ledger) }
        ensures represents { IfOk result (λ sv. (random : List (List ℕ)) → RepresentsServing sv (record { play = beginning keys.entry.now programs.entry.now (joins_kept ledger) [] random; graphs = []; last = no_frames })) }
        ensures ledger { IfOk result (λ sv. sv.ledger ≡ ledger) }
        ensures memory { IfErr result (λ e. e ≡ ServeFault.OutOfMemory) }
    {
        match Player::new(alloc, node, keys, programs, Seq::new(alloc)) {
            Ok(player) => Ok(Server {
                alloc,
                player,
                graphs: Graphs::new(alloc),
                last: LastFrames::new(alloc),
                ledger,
            }),
            Err(_) => {
                drop(ledger);
                Err(ServeFault::OutOfMemory)
            }
        }
    }

    // The session of a number.
    pub fn sid(&self, number: u32) -> Option<Sid>
        ensures { (p : Play) → RepresentsPlay self.now.player p → result ≡ slice_get (sids_of p) (number - 1) }
    {
        self.player.session_at(number.saturating_sub(1) as usize)
    }

    // The graph of the session of a number.
    pub fn graph(&self, number: u32) -> Option<&'p Graph>
        ensures { option_copied result ≡ unwrap_or (slice_get self.now.graphs (number - 1)) None }
    {
        self.graphs.at(number.saturating_sub(1) as usize)
    }

    // A session is live.
    pub fn is_live(&self, sid: &Sid) -> bool
        ensures { (p : Play) → RepresentsPlay self.now.player p → result ≡ is_live p sid.now }
    {
        self.player.graph_of(sid).is_some()
    }
}
