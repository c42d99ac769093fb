//! The step of a craft.
ghost use Rattle.std.specs.Prelude.{◌≡◌, option_map, option_copied, IfOk, IsErr, MatchResult, IsTrue};
ghost use Rattle.sg_protocol.specs.Schedule.{CraftStep};
ghost use Rattle.sg_sched.specs.Format.Crafts.{source_of};
ghost use Rattle.sg_sched.specs.Format.Faults.{is_short};
ghost use Rattle.sg_sched.specs.Format.Forms.{is_craft};
ghost use Rattle.sg_sched.specs.Format.Items.{graph_for, session_named};
ghost use Rattle.sg_sched.specs.Format.LineContents.{MakeLine};
ghost use Rattle.sg_sched.specs.Format.StepsHeld.{step_of};
ghost use Rattle.sg_sched_text.specs.Adding.{after_line};
ghost use Rattle.sg_sched_text.specs.Crafting.{craft_of, craft_step, known_ends, known_lists, Lists};
ghost use Rattle.sg_sched_text.specs.TakingLines.{Takes};

use crate::craft::{items, openings, role, source};
use crate::declarations::Declared;
use crate::length::is_short;
use crate::rising::rises;
use crate::stop::Stop;
use sg_base::{Opening, OutOfMemory, Role, Seq};
use sg_graph::Graph;
use sg_sched::line::CraftLine;
use sg_sched::{Craft, CraftItem, CraftJoin, HeldCraft, Kind, Source, Step};
use std::alloc::Global;
use std::marker::Model;

// The lists of a craft.
#[derive(Drop)]
struct CraftLists {
    know: Seq<Opening>,
    items: Seq<CraftItem>,
    openings: Seq<Opening>,
}

impl Model for CraftLists {
    ghost use Rattle.sg_sched_text.specs.Crafting.{Lists};

    ghost Value = { Lists };

    ghost view = { λ l. record { know = l.know; items = l.items; openings = l.openings } };
}

// A craft but for what its frame joins with.
#[derive(Drop)]
struct CraftParts {
    ends: (u32, Role, Role),
    lists: CraftLists,
    seal: Source,
}

impl Declared {
    /// A frame is made.
    pub fn craft(&mut self, craft: CraftLine<'_>) -> Result<(), Stop>
        requires { IsTrue (is_craft craft) }
        ensures { Takes (after_line self.old (MakeLine craft.entry)) self.new result }
    {
        if !rises(self.graph_for(&craft.session), &craft) {
            drop(craft);
            return Err(Stop::Wrong(Kind::Form));
        }
        if !self.is_short(&craft)? {
            drop(craft);
            return Err(Stop::Wrong(Kind::Form));
        }
        let step = self.craft_step(craft)?;
        self.add_step(false, true, step)
    }

    // Whether the frame has at most 60,000 bytes, if the session is declared.
    fn is_short(&self, craft: &CraftLine<'_>) -> Result<bool, OutOfMemory>
        requires { IsTrue (is_craft craft.now) }
        ensures { IfOk result (λ b. b ≡ is_short (graph_for craft.now.session self.now) (session_named craft.now.session self.now) craft.now) }
    {
        let Some(index) = self.sessions.index(&craft.session) else {
            return Ok(true);
        };
        let (_, like) = self.sessions.at(index);
        is_short(self.alloc, like.names.as_slice(), like.version, craft)
    }

    // The step, if all its names are declared.
    fn craft_step(&self, craft: CraftLine<'_>) -> Result<Option<Step>, OutOfMemory>
        requires { IsTrue (is_craft craft) }
        ensures { IfOk result (λ o. option_map step_of o ≡ craft_step self.now (graph_for craft.entry.session self.now) craft.entry) }
    {
        let parts = self.parts(&craft);
        joined(self.alloc, craft.join, parts)
    }

    // All of the step but what the frame joins with, if all its names are declared.
    fn parts(&self, craft: &CraftLine<'_>) -> Result<Option<CraftParts>, OutOfMemory>
        requires { IsTrue (is_craft craft.now) }
        ensures { IfOk result (λ o. option_map (λ p. craft_of craft.now (p.ends.0, (p.ends.1, p.ends.2)) p.lists (source_of p.seal)) o
            ≡ craft_step self.now (graph_for craft.now.session self.now) craft.now) }
    {
        let graph = self.graph_for(&craft.session);
        let Some(ends) = self.ends(graph, craft) else {
            return Ok(None);
        };
        let Some(seal) = source(self, graph, &craft.seal) else {
            return Ok(None);
        };
        match self.lists(graph, craft)? {
            Some(lists) => Ok(Some(CraftParts { ends, lists, seal })),
            None => Ok(None),
        }
    }

    // The session and the roles, if they are declared.
    fn ends(&self, graph: Option<&Graph>, craft: &CraftLine<'_>) -> Option<(u32, Role, Role)>
        ensures { option_map (λ e. (e.0, (e.1, e.2))) result ≡ known_ends self.now (option_copied graph.entry) craft.now }
    {
        let session = self.session_index(&craft.session)?;
        let from = role(graph, &craft.from)?;
        let to = role(graph, &craft.to)?;
        Some((session, from, to))
    }

    // The lists, if all their names are declared.
    #[tactic(auto, using(crate::proofs::FormParts::craft_parts))]
    fn lists(
        &self,
        graph: Option<&Graph>,
        craft: &CraftLine<'_>,
    ) -> Result<Option<CraftLists>, OutOfMemory>
        requires { IsTrue (is_craft craft.now) }
        ensures { IfOk result (λ o. o ≡ known_lists self.now (option_copied graph.entry) craft.now) }
    {
        let Some(know) = openings(self.alloc, graph, craft.know.as_slice())? else {
            return Ok(None);
        };
        let Some(items) = items(self, graph, craft.items.as_slice())? else {
            return Ok(None);
        };
        let Some(openings) = openings(self.alloc, graph, craft.openings.as_slice())? else {
            return Ok(None);
        };
        Ok(Some(CraftLists {
            know,
            items,
            openings,
        }))
    }
}

// The step of these parts with what the frame joins with.
fn joined(
    alloc: Global,
    join: Option<CraftJoin>,
    parts: Result<Option<CraftParts>, OutOfMemory>,
) -> Result<Option<Step>, OutOfMemory>
    ensures { MatchResult parts (λ p. IfOk result (λ o. option_map step_of o
        ≡ option_map (λ q. CraftStep (record {
          session = q.ends.0;
          from = q.ends.1;
          to = q.ends.2;
          join = join;
          know = q.lists.know;
          items = q.lists.items;
          openings = q.lists.openings;
          seal = source_of q.seal;
        })) p)) (λ _. IsErr result) }
{
    match parts? {
        Some(parts) => {
            let held = HeldCraft::new(alloc, craft_of(join, parts))?;
            Ok(Some(Step::Craft(held)))
        }
        None => Ok(None),
    }
}

// The craft of these parts with what the frame joins with.
fn craft_of(join: Option<CraftJoin>, parts: CraftParts) -> Craft
    ensures { result ≡ record {
      session = parts.ends.0;
      from = parts.ends.1;
      to = parts.ends.2;
      join = join;
      know = parts.lists.know;
      items = parts.lists.items;
      openings = parts.lists.openings;
      seal = source_of parts.seal;
    } }
{
    let CraftParts { ends, lists, seal } = parts;
    let CraftLists {
        know,
        items,
        openings,
    } = lists;
    Craft {
        session: ends.0,
        from: ends.1,
        to: ends.2,
        join,
        know,
        items,
        openings,
        seal,
    }
}
