//! The choices of a script that can still be taken, found without a scan.
ghost use Rattle.std.specs.Prelude.{◌≡◌, ℕ, ◌<◌, ◌≤◌, ◌++◌, [], ◌∷◌, List, length, nat_lt, slice_get, if◌then◌else◌, find, IfOk, OnOk};
ghost use Rattle.std.specs.Option.{option_copied};
ghost use Rattle.sg_model.specs.Names.{Name};
ghost use Rattle.sg_script.specs.Script.{Choice};
ghost use Rattle.sg_play.specs.Choosing.{is_ready, used};
ghost use Rattle.sg_play.specs.Queues.{Spot, is_spot, queue_at, used_first, HoldsChoices};

use indexmap::IndexMap;
use sg_base::{Name, NodeId, OutOfMemory};
use sg_script::ScriptChoice;
use std::alloc::Global;
use std::marker::Model;

/// The choices for one node of a graph that have uses left, in order. A clause sees their list.
#[derive(Drop)]
struct Queue {
    list: Vec<ScriptChoice>,
    at: usize,
}

impl Model for Queue {
    ghost use Rattle.std.specs.Prelude.{List, ◌≤◌, drop, length};
    ghost use Rattle.sg_script.specs.Script.{Choice};

    ghost Value = { List Choice };

    ghost view = { λ q. drop q.at q.list.items };

    ghost invariant = { λ q. q.at ≤ length q.list.items };
}

impl Queue {
    // No choices. It takes no memory.
    fn new(alloc: Global) -> Queue
        ensures { result ≡ [] }
    {
        Queue {
            list: Vec::new(alloc),
            at: 0,
        }
    }

    // Puts a choice at the end.
    fn push(&mut self, choice: ScriptChoice) -> Result<(), OutOfMemory>
        ensures { OnOk result (self.new ≡ self.old ++ choice ∷ []) }
    {
        self.list.push(choice)?;
        Ok(())
    }

    // The first choice. It takes no memory.
    fn first(&self) -> Option<&ScriptChoice>
        ensures { option_copied result ≡ slice_get self.now 0 }
    {
        self.list.get(self.at)
    }

    // Takes one use off the first choice, which leaves with its last one.
    fn use_first(&mut self)
        ensures { self.new ≡ used_first self.old }
    {
        if self.at < self.list.len() {
            let first = &mut self.list[self.at];
            if first.times > 1 {
                first.times -= 1;
            } else {
                self.at += 1;
            }
        }
    }
}

/// The choices of a script that can still be taken. A clause sees the queue of each node of a graph.
#[derive(Drop)]
pub(crate) struct Choices {
    table: IndexMap<(Name, u16), Queue>,
}

impl Model for Choices {
    ghost use Rattle.std.specs.Prelude.{List};
    ghost use Rattle.sg_script.specs.Script.{Choice};
    ghost use Rattle.sg_play.specs.Queues.{Spot};

    ghost Value = { List (Spot × List Choice) };

    ghost view = { λ c. c.table.entries };
}

impl Choices {
    /// The choices of a list.
    pub(crate) fn new(alloc: Global, list: Vec<ScriptChoice>) -> Result<Choices, OutOfMemory>
        ensures { IfOk result (λ c. HoldsChoices c list.items) }
    {
        let mut choices = Choices {
            table: IndexMap::new(alloc),
        };
        for choice in list {
            choices.put(alloc, choice)?;
        }
        Ok(choices)
    }

    // Puts a choice after the others.
    fn put(&mut self, alloc: Global, choice: ScriptChoice) -> Result<(), OutOfMemory>
        ensures { OnOk result ((cs : List Choice) → HoldsChoices self.old cs → HoldsChoices self.new (cs ++ choice ∷ [])) }
    {
        if has_uses(&choice) {
            let spot = spot_of(&choice);
            put_at(alloc, &mut self.table, spot, choice)
        } else {
            Ok(())
        }
    }

    /// The first choice for a node of a graph that has uses left. It takes no memory.
    pub(crate) fn first(&self, graph: &Name, node: NodeId) -> Option<&ScriptChoice>
        ensures { (cs : List Choice) → HoldsChoices self.now cs → option_copied result ≡ find (is_ready graph.now node) cs }
    {
        match self.table.get(&spot(graph, node)) {
            Some(queue) => queue.first(),
            None => None,
        }
    }

    /// Takes one use off this choice. It takes no memory.
    pub(crate) fn use_first(&mut self, graph: &Name, node: NodeId)
        ensures { (cs : List Choice) → HoldsChoices self.old cs → HoldsChoices self.new (used graph.now node cs) }
    {
        use_at(&mut self.table, spot(graph, node));
    }
}

// The key of a node's queue.
fn spot(graph: &Name, node: NodeId) -> (Name, u16)
    ensures { result ≡ (graph.now, node) }
{
    (*graph, node.0)
}

// The key of a choice's queue.
fn spot_of(choice: &ScriptChoice) -> (Name, u16)
    ensures { result ≡ (choice.now.graph, choice.now.node) }
{
    spot(&choice.graph, choice.node)
}

// The choice has uses left.
fn has_uses(choice: &ScriptChoice) -> bool
    ensures { result ≡ nat_lt 0 choice.now.times }
{
    choice.times > 0
}

// Puts a choice at the end of a spot's queue, which is made if there is none.
fn put_at(
    alloc: Global,
    table: &mut IndexMap<(Name, u16), Queue>,
    spot: (Name, u16),
    choice: ScriptChoice,
) -> Result<(), OutOfMemory>
    ensures { OnOk result ((graph : List ℕ) (node : ℕ) →
        queue_at table.new.entries graph node ≡ queue_at table.old.entries graph node ++ (if is_spot graph node spot then choice ∷ [] else [])) }
{
    if let Some(queue) = table.get_mut(&spot) {
        return queue.push(choice);
    }
    let mut queue = Queue::new(alloc);
    queue.push(choice)?;
    table.insert(spot, queue)?;
    Ok(())
}

// Takes one use off the first choice of a spot's queue.
fn use_at(table: &mut IndexMap<(Name, u16), Queue>, spot: (Name, u16))
    ensures { (graph : List ℕ) (node : ℕ) →
        queue_at table.new.entries graph node ≡ (if is_spot graph node spot then used_first (queue_at table.old.entries graph node) else queue_at table.old.entries graph node) }
{
    if let Some(queue) = table.get_mut(&spot) {
        queue.use_first();
    }
}
