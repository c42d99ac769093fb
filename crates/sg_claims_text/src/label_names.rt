//! The names of a graph's labels, looked up without a search.
ghost use Rattle.std.specs.Prelude.{◌≡◌, ◌<◌, ◌≤◌, IfOk, IfSome, IsSome, IsTrue, ◌↔◌, length};
ghost use Rattle.sg_graph.specs.Parts.{edge_names};
ghost use Rattle.sg_model.specs.Lists.{has_text};
ghost use Rattle.sg_parse.specs.Reading.{index_of};

use sg_base::{Label, Name, OutOfMemory};
use sg_graph::Graph;
use sg_parse::NameSet;
use std::alloc::Global;
use std::marker::Model;

// The names of at most 512 labels, each at its label's number. A clause sees their list.
#[derive(Drop)]
pub struct LabelNames {
    names: NameSet,
}

impl Model for LabelNames {
    ghost use Rattle.std.specs.Prelude.{ℕ, ◌≤◌, List, length};

    ghost Value = { List (List ℕ) };

    ghost view = { λ l. l.names };

    ghost invariant = { λ l. length l.names ≤ 512 };
}

impl LabelNames {
    // The names of the graph's labels.
    pub fn of_graph(alloc: Global, graph: &Graph) -> Result<LabelNames, OutOfMemory>
        ensures { IfOk result (λ l. l ≡ edge_names graph.now) }
    {
        let mut names = NameSet::new(alloc);
        'labels: for number in 0..graph.edges() {
            names.add(graph.edge_name(Label(number)))?;
        }
        Ok(LabelNames { names })
    }

    // The label of this name.
    pub fn find(&self, name: &Name) -> Option<Label>
        ensures found { IsSome result ↔ IsTrue (has_text name.now self.now) }
        ensures index { IfSome result (λ l. index_of name.now self.now ≡ l) }
        ensures there { IfSome result (λ l. l < 512) }
    {
        match self.names.index(name) {
            Some(index) => Some(Label(index as u16)),
            None => None,
        }
    }
}
