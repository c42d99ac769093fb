//! Steps, of which a schedule has at most 200,000.
ghost use Rattle.std.specs.Prelude.{◌≡◌, ◌||◌, false, option_map, IfOk, IsOk, IsTrue};
ghost use Rattle.std.specs.List.{list_all};
ghost use Rattle.sg_model.specs.Lists.{has_text};
ghost use Rattle.sg_sched.specs.Format.LineContents.{StartLine, ActLine, AbandonLine, DeliverLine};
ghost use Rattle.sg_sched.specs.Format.Forms.{is_assignment};
ghost use Rattle.sg_sched.specs.Format.Model.{delivered};
ghost use Rattle.sg_sched.specs.Format.Numbered.{what_of as made};
ghost use Rattle.sg_sched.specs.Format.StepsHeld.{step_of, what_of};
ghost use Rattle.sg_sched.specs.Format.Values.{bytes_of};
ghost use Rattle.sg_sched_text.specs.Adding.{add_step, start_step, abandon_step, act_step, after_line};
ghost use Rattle.sg_sched_text.specs.Early.{has_bytes};
ghost use Rattle.sg_sched_text.specs.TakingLines.{IsRefusedEarly, Takes};

use crate::declarations::Declared;
use crate::stop::Stop;
use crate::values::{differ, known_values};
use sg_base::{Name, OutOfMemory};
use sg_sched::index::label_index;
use sg_sched::line::Delivered;
use sg_sched::value::read_hex;
use sg_sched::{Assignment, Change, Kind, Step, What};
use std::alloc::Global;

const MOST_STEPS: usize = 200_000;

impl Declared {
    /// A step, or `None` if it has a name that isn't declared.
    #[tactic(auto, unfolding(crate::specs::Adding::add_step))]
    pub fn add_step(&mut self, repeated: bool, honest: bool, step: Option<Step>) -> Result<(), Stop>
        ensures takes { Takes (add_step self.old repeated honest (option_map step_of step)) self.new result }
        ensures early { honest ≡ false → IsRefusedEarly result }
    {
        if self.steps.len() >= MOST_STEPS {
            drop(step);
            return Err(Stop::Wrong(Kind::TooManySteps));
        }
        let Some(step) = step else {
            return Err(Stop::Wrong(Kind::Unknown));
        };
        if repeated {
            drop(step);
            return Err(Stop::Wrong(Kind::Twice));
        }
        if !honest {
            drop(step);
            return Err(Stop::Wrong(Kind::NotHonest));
        }
        if let Err(_) = self.steps.push(step) {
            return Err(Stop::OutOfMemory);
        }
        self.group = self.group.max(4);
        Ok(())
    }

    /// The principal starts the session.
    pub fn start(&mut self, who: Name, session: &Name) -> Result<(), Stop>
        ensures takes { Takes (after_line self.old (StartLine who session.now)) self.new result }
        ensures early { has_text who self.old.honest ≡ false → IsRefusedEarly result }
    {
        let honest = self.is_honest(&who);
        let step = self.start_step(who, session);
        self.add_step(false, honest, step)
    }

    // The step, or `None` if the session isn't declared.
    fn start_step(&self, who: Name, session: &Name) -> Option<Step>
        ensures { option_map step_of result ≡ start_step self.now who session.now }
    {
        let session = self.session_index(session)?;
        Some(Step::Start { who, session })
    }

    /// The principal abandons the session.
    pub fn abandon(&mut self, who: Name, session: &Name) -> Result<(), Stop>
        ensures takes { Takes (after_line self.old (AbandonLine who session.now)) self.new result }
        ensures early { has_text who self.old.honest ≡ false → IsRefusedEarly result }
    {
        let honest = self.is_honest(&who);
        let step = self.abandon_step(who, session);
        self.add_step(false, honest, step)
    }

    // The step, or `None` if the session isn't declared.
    fn abandon_step(&self, who: Name, session: &Name) -> Option<Step>
        ensures { option_map step_of result ≡ abandon_step self.now who session.now }
    {
        let session = self.session_index(session)?;
        Some(Step::Abandon { who, session })
    }

    /// The principal is given bytes.
    pub fn deliver(&mut self, who: Name, what: &Delivered<'_>) -> Result<(), Stop>
        ensures takes { Takes (after_line self.old (DeliverLine who (delivered what.now))) self.new result }
        ensures early { (has_bytes (delivered what.now) || has_text who self.old.honest) ≡ false → IsRefusedEarly result }
    {
        let honest = self.is_honest(&who);
        let what = what_of(self.alloc, what)?;
        self.add_step(false, honest, Some(Step::Deliver { who, what }))
    }

    /// The principal acts in the session.
    pub fn act(
        &mut self,
        who: Name,
        session: &Name,
        label: &Name,
        values: &[Assignment<'_>],
    ) -> Result<(), Stop>
        requires { IsTrue (list_all is_assignment values.now) }
        ensures { Takes (after_line self.old (ActLine who session.now label.now values.now)) self.new result }
    {
        let honest = self.is_honest(&who);
        let repeated = !differ(self.alloc, values)?;
        let step = self.act_step(who, session, label, values)?;
        self.add_step(repeated, honest, step)
    }

    // The step of an act, or `None` if a name isn't declared.
    fn act_step(
        &self,
        who: Name,
        session: &Name,
        label: &Name,
        values: &[Assignment<'_>],
    ) -> Result<Option<Step>, OutOfMemory>
        requires { IsTrue (list_all is_assignment values.now) }
        ensures { IfOk result (λ o. option_map step_of o ≡ act_step self.now who session.now label.now values.now) }
    {
        let Some(graph) = self.graph_for(session) else {
            return Ok(None);
        };
        let Some(session) = self.session_index(session) else {
            return Ok(None);
        };
        let Some(label) = label_index(graph, label) else {
            return Ok(None);
        };
        match known_values(self.alloc, graph, values)? {
            Some(values) => Ok(Some(Step::Act {
                who,
                session,
                label,
                values,
            })),
            None => Ok(None),
        }
    }
}

// What is delivered.
fn what_of(alloc: Global, what: &Delivered<'_>) -> Result<What, OutOfMemory>
    ensures made { IfOk result (λ w. what_of w ≡ made (delivered what.now)) }
    ensures early { has_bytes (delivered what.now) ≡ false → IsOk result }
{
    match what {
        Delivered::Frame(number) => Ok(What::Frame {
            number: *number,
            change: Change::Whole,
        }),
        Delivered::Flipped { number, at } => Ok(What::Frame {
            number: *number,
            change: Change::Flip(*at),
        }),
        Delivered::Cut { number, len } => Ok(What::Frame {
            number: *number,
            change: Change::Cut(*len),
        }),
        Delivered::Bytes(digits) => Ok(What::Bytes(bytes_of(alloc, digits)?)),
    }
}

// The bytes of digits, or none if they are none.
fn bytes_of(alloc: Global, digits: &[u8]) -> Result<Vec<u8>, OutOfMemory>
    ensures { IfOk result (λ bytes. bytes.items ≡ bytes_of digits.now) }
{
    match read_hex(alloc, digits)? {
        Some(bytes) => Ok(bytes),
        None => Ok(Vec::new(alloc)),
    }
}
