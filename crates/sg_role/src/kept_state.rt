//! What a role keeps of a session.
ghost use Rattle.std.specs.Prelude.{◌≡◌, length, map, IfOk, IfSome, IsTrue, None, true, false, nat_lt, ◌↔◌};
ghost use Rattle.sg_model.specs.Lists.{below};
ghost use Rattle.sg_model.specs.Shape.{role_at};
ghost use Rattle.sg_protocol.specs.Graph.{shape};
ghost use Rattle.sg_protocol.specs.Session.{principal};
ghost use Rattle.sg_protocol.specs.Representation.{nothing_kept};
ghost use Rattle.sg_protocol.specs.Texts.{real, session_id};
ghost use Rattle.sg_role.specs.Accepting.{goes_on};
ghost use Rattle.sg_vis.specs.Model.{origin_of};
ghost use Rattle.sg_role.specs.Model.{state_of};

use sg_base::{Label, Name, NodeId, Opening, OutOfMemory, Role, Sid, Time};
use sg_crypt::{Cast, SharedCast};
use sg_frame::Item;
use sg_program::Program;
use sg_vis::Origin;
use std::alloc::Global;
use std::rc::Rc;

/// What a role keeps of a session: no history, so its size is bounded by the graph's.
#[derive(Drop)]
pub(crate) struct KeptState<'p> {
    pub program: &'p Program,
    pub sid: Sid,
    pub cast: SharedCast,
    /// The role's own last label.
    pub from: Origin,
    /// The time of the role's own last step.
    pub own_time: Time,
    /// The time of the last step.
    pub time: Time,
    /// The node to which the last step led.
    pub place: NodeId,
    /// The last item of each sender, with what was written since the one before it.
    pub items: Vec<Item>,
    /// The current commitment of each variable.
    pub commitments: Vec<Option<[u8; 32]>>,
    /// The opening of each variable that the role knows.
    pub openings: Vec<Option<Opening>>,
}

/// The same on the heap, for several to hold: neither moving nor sharing it copies it.
pub(crate) fn shared<'p>(
    alloc: Global,
    kept: KeptState<'p>,
) -> Result<Rc<KeptState<'p>>, OutOfMemory>
    ensures { IfOk result (λ k. k.value ≡ kept.entry) }
{
    Ok(Rc::new(alloc, kept)?)
}

impl<'p> KeptState<'p> {
    /// What the program's role keeps of a new session of the cast, which has this identifier.
    pub fn new(
        alloc: Global,
        program: &'p Program,
        cast: Cast,
        sid: Sid,
    ) -> Result<KeptState<'p>, OutOfMemory>
        requires { sid ≡ session_id real cast }
        ensures { IfOk result (λ k. state_of k ≡ record {
          program = program.entry.now;
          held = record { sid = session_id real cast; cast = cast; role = program.entry.now.role; kept = nothing_kept program.entry.now.graph };
        }) }
    {
        let count = program.graph().vars();
        let commitments = nothing(alloc, count)?;
        let openings = nothing(alloc, count)?;
        let cast = SharedCast::new(alloc, cast)?;
        Ok(KeptState {
            program,
            sid,
            cast,
            from: Origin::Start,
            own_time: Time(0),
            time: Time(0),
            place: NodeId(0),
            items: Vec::new(alloc),
            commitments,
            openings,
        })
    }

    /// What is kept of the same session after a step, on the heap: the role's own last label and its time, the time and the place of the
    /// step, and the lists with it.
    pub fn stepped(
        &self,
        alloc: Global,
        from: Origin,
        own_time: Time,
        time: Time,
        place: NodeId,
        items: Vec<Item>,
        commitments: Vec<Option<[u8; 32]>>,
        openings: Vec<Option<Opening>>,
    ) -> Result<Rc<KeptState<'p>>, OutOfMemory>
        ensures { IfOk result (λ k. state_of k.value ≡ record {
          program = (state_of self.now).program;
          held = record (state_of self.now).held {
            kept = record {
              origin = origin_of from;
              own_time = own_time;
              time = time;
              place = place;
              items = items.items;
              commitments = commitments.items;
              openings = openings.items;
            };
          };
        }) }
    {
        let cast = self.cast.share()?;
        let next = KeptState {
            program: self.program,
            sid: self.sid,
            cast,
            from,
            own_time,
            time,
            place,
            items,
            commitments,
            openings,
        };
        let held = shared(alloc, next)?;
        Ok(held)
    }

    /// The principal of a role, or `None` if the role isn't one of the cast. It takes no memory.
    #[tactic(auto, using(crate::proofs::Lists::got, crate::proofs::Lists::not_got))]
    pub fn principal(&self, role: Role) -> Option<Name>
        ensures there { IfSome result (λ n. nat_lt role (length self.now.cast.names) ≡ true) }
        ensures not_there { result ≡ None → nat_lt role (length self.now.cast.names) ≡ false }
        ensures name { IfSome result (λ n. principal self.now.cast role ≡ n) }
    {
        self.cast.of(role)
    }

    /// Whether the role is that of the start node. It takes no memory.
    pub fn starts(&self) -> bool
        ensures { IsTrue result ↔ (role_at (shape (state_of self.now).program.graph) 0 ≡ (state_of self.now).held.role) }
    {
        let graph = self.program.graph();
        self.program.role() == graph.node_role(NodeId(0))
    }

    /// Whether an edge leaves the place. It takes no memory.
    #[tactic(auto, using(crate::proofs::Edges::goes_on_by, crate::proofs::Edges::none_goes_on))]
    pub fn goes_on(&self) -> bool
        ensures { result ≡ goes_on (state_of self.now).program.graph (state_of self.now).held.kept.place }
    {
        let graph = self.program.graph();
        for number in 0..graph.edges() {
            if graph.edge(Label(number)).source == self.place {
                return true;
            }
        }
        false
    }
}

/// The same items.
pub(crate) fn copied<T: Copy + Drop>(alloc: Global, items: &[T]) -> Result<Vec<T>, OutOfMemory>
    ensures { IfOk result (λ v. v.items ≡ items.now) }
{
    // Not `to_vec`, which says that these are clones: that they are the same takes longer to prove than this loop.
    let mut list = Vec::new(alloc);
    for at in 0..items.len() {
        list.push(items[at])?;
    }
    Ok(list)
}

// As many times nothing.
#[tactic(auto, using(crate::proofs::Lists::const_more))]
fn nothing<T: Drop>(alloc: Global, count: u8) -> Result<Vec<Option<T>>, OutOfMemory>
    ensures { IfOk result (λ v. v.items ≡ map (λ x. None) (below count)) }
{
    let mut list = Vec::new(alloc);
    for _ in 0..count {
        list.push(None)?;
    }
    Ok(list)
}
