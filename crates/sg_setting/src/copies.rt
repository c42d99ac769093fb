//! Equal copies of what a schedule declares, and of its steps.
ghost use Rattle.std.specs.Prelude.{◌≡◌, IfOk};
ghost use Rattle.sg_sched.specs.Format.StepsHeld.{step_of, what_of};

use sg_base::{Name, OutOfMemory, Role, Seq, Value, Var, copy_openings};
use sg_graph::Graph;
use sg_sched::{Craft, CraftItem, CraftJoin, HeldCraft, NamedSession, Source, Step, What};
use std::alloc::Global;

/// Equal graphs.
pub(crate) fn copy_graphs(alloc: Global, graphs: &[Graph]) -> Result<Seq<Graph>, OutOfMemory>
    ensures { IfOk result (λ g. g ≡ graphs.now) }
{
    let mut copies = Seq::new(alloc);
    for graph in graphs {
        copies.push(graph.copy(alloc)?)?;
    }
    Ok(copies)
}

/// Equal sessions.
pub(crate) fn copy_sessions(
    alloc: Global,
    sessions: &[NamedSession],
) -> Result<Seq<NamedSession>, OutOfMemory>
    ensures { IfOk result (λ s. s ≡ sessions.now) }
{
    let mut copies = Seq::new(alloc);
    for session in sessions {
        copies.push(copy_session(session))?;
    }
    Ok(copies)
}

fn copy_session(session: &NamedSession) -> NamedSession
    ensures { result ≡ session.now }
{
    NamedSession {
        name: session.name,
        cast: session.cast,
    }
}

/// An equal step. If memory runs out, none.
pub fn copy_step(alloc: Global, step: &Step) -> Result<Step, OutOfMemory>
    ensures { IfOk result (λ s. step_of s ≡ step_of step.now) }
{
    match step {
        Step::Start { who, session } => Ok(Step::Start {
            who: *who,
            session: *session,
        }),
        Step::Act {
            who,
            session,
            label,
            values,
        } => Ok(Step::Act {
            who: *who,
            session: *session,
            label: *label,
            values: copy_values(alloc, values.as_slice())?,
        }),
        Step::Abandon { who, session } => Ok(Step::Abandon {
            who: *who,
            session: *session,
        }),
        Step::Deliver { who, what } => Ok(Step::Deliver {
            who: *who,
            what: copy_what(alloc, what)?,
        }),
        Step::Craft(craft) => Ok(Step::Craft(copy_held(alloc, craft)?)),
    }
}

fn copy_values(alloc: Global, values: &[(Var, Value)]) -> Result<Seq<(Var, Value)>, OutOfMemory>
    ensures { IfOk result (λ v. v ≡ values.now) }
{
    let mut copies = Seq::from_vec(Vec::with_capacity(alloc, values.len())?);
    for value in values {
        copies.push((value.0, value.1.copy(alloc)?))?;
    }
    Ok(copies)
}

fn copy_what(alloc: Global, what: &What) -> Result<What, OutOfMemory>
    ensures { IfOk result (λ w. what_of w ≡ what_of what.now) }
{
    match what {
        What::Frame { number, change } => Ok(What::Frame {
            number: *number,
            change: *change,
        }),
        What::Bytes(bytes) => Ok(What::Bytes(bytes.as_slice().to_vec(alloc)?)),
    }
}

fn copy_held(alloc: Global, craft: &HeldCraft) -> Result<HeldCraft, OutOfMemory>
    ensures { IfOk result (λ c. c ≡ craft.now) }
{
    HeldCraft::new(alloc, copy_craft(alloc, craft.get())?)
}

#[cold]
fn copy_craft(alloc: Global, craft: &Craft) -> Result<Craft, OutOfMemory>
    ensures { IfOk result (λ c. c ≡ craft.now) }
{
    Ok(Craft {
        session: craft.session,
        from: craft.from,
        to: craft.to,
        seal: copy_source(&craft.seal),
        join: copy_join(alloc, &craft.join)?,
        know: copy_openings(alloc, craft.know.as_slice())?,
        openings: copy_openings(alloc, craft.openings.as_slice())?,
        items: copy_items(alloc, craft.items.as_slice())?,
    })
}

fn copy_join(alloc: Global, join: &Option<CraftJoin>) -> Result<Option<CraftJoin>, OutOfMemory>
    ensures { IfOk result (λ j. j ≡ join.now) }
{
    match join {
        None => Ok(None),
        Some(join) => Ok(Some(CraftJoin {
            nonce: join.nonce,
            names: copy_names(alloc, &join.names)?,
        })),
    }
}

fn copy_names(alloc: Global, names: &Option<Seq<Name>>) -> Result<Option<Seq<Name>>, OutOfMemory>
    ensures { IfOk result (λ n. n ≡ names.now) }
{
    match names {
        None => Ok(None),
        Some(names) => Ok(Some(Seq::from_vec(names.as_slice().to_vec(alloc)?))),
    }
}

fn copy_items(alloc: Global, items: &[CraftItem]) -> Result<Seq<CraftItem>, OutOfMemory>
    ensures { IfOk result (λ i. i ≡ items.now) }
{
    let mut copies = Seq::new(alloc);
    for item in items {
        copies.push(copy_item(alloc, item)?)?;
    }
    Ok(copies)
}

fn copy_item(alloc: Global, item: &CraftItem) -> Result<CraftItem, OutOfMemory>
    ensures { IfOk result (λ i. i ≡ item.now) }
{
    Ok(CraftItem {
        label: item.label,
        time: item.time,
        tags: copy_tags(alloc, item.tags.as_slice())?,
        delta: copy_openings(alloc, item.delta.as_slice())?,
    })
}

fn copy_tags(alloc: Global, tags: &[(Role, Source)]) -> Result<Seq<(Role, Source)>, OutOfMemory>
    ensures { IfOk result (λ t. t ≡ tags.now) }
{
    let mut copies = Seq::new(alloc);
    for tag in tags {
        copies.push((tag.0, copy_source(&tag.1)))?;
    }
    Ok(copies)
}

fn copy_source(source: &Source) -> Source
    ensures { result ≡ source.now }
{
    match source {
        Source::Key(one, two) => Source::Key(*one, *two),
        Source::CopyItem { frame, item, role } => Source::CopyItem {
            frame: *frame,
            item: *item,
            role: *role,
        },
        Source::CopySeal { frame } => Source::CopySeal { frame: *frame },
        Source::Zero => Source::Zero,
    }
}
