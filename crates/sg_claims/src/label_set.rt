//! Different labels in the order in which they were added, with a table of which are there.
ghost use Rattle.std.specs.Prelude.{◌≡◌, ◌<◌, ◌++◌, [], ◌∷◌, false, length, All, IsTrue, OnErr, OnOk};
ghost use Rattle.sg_model.specs.Lists.{is_in};
ghost use Rattle.sg_claims.specs.Labels.{are_once};

use sg_base::{Label, OutOfMemory};
use std::alloc::Global;
use std::marker::Model;

/// Different labels in order, each from 0 to 511. Whether a label is there is looked up without a search. A clause sees their list.
#[derive(Drop)]
pub struct LabelSet {
    labels: Vec<Label>,
    // Whether each label is there.
    table: [bool; 512],
}

impl Model for LabelSet {
    ghost use Rattle.std.specs.Prelude.{ℕ, List};

    ghost Value = { List ℕ };

    ghost use Rattle.sg_claims.specs.Invariant.{HoldsLabels};

    ghost view = { λ s. s.labels.items };

    ghost invariant = { λ s. HoldsLabels s.labels.items s.table };
}

impl LabelSet {
    /// The empty set. It takes no memory.
    pub fn new(alloc: Global) -> LabelSet
        ensures { result ≡ [] }
    {
        LabelSet {
            labels: Vec::new(alloc),
            table: [false; 512],
        }
    }

    /// Whether the label is there. A label that is not below 512 is in no set.
    pub fn has(&self, label: Label) -> bool
        ensures { result ≡ is_in label self.now }
    {
        let index = label.0 as usize;
        index < 512 && self.table[index]
    }

    /// Adds a label that isn't there, at the end. If memory runs out, the labels are as before.
    pub fn add(&mut self, label: Label) -> Result<(), OutOfMemory>
        requires absent { is_in label self.old ≡ false }
        requires there { label < 512 }
        ensures ok { OnOk result (self.new ≡ self.old ++ label ∷ []) }
        ensures err { OnErr result (self.new ≡ self.old) }
    {
        self.labels.push(label)?;
        self.table[label.0 as usize] = true;
        Ok(())
    }

    /// The number of labels, at most 512.
    pub fn len(&self) -> usize
        ensures { result ≡ length self.now }
    {
        self.labels.len()
    }

    /// The labels in order.
    pub fn as_slice(&self) -> &[Label]
        ensures labels { result.now ≡ self.now }
        ensures once { IsTrue (are_once self.now) }
        ensures there { All (λ l. l < 512) self.now }
    {
        self.labels.as_slice()
    }
}
