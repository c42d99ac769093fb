//! How one more line is taken.
ghost use Rattle.std.specs.Prelude.{◌≡◌, false, IsTrue};
ghost use Rattle.sg_sched.specs.Format.Forms.{is_form};
ghost use Rattle.sg_sched.specs.Format.Model.{statement};
ghost use Rattle.sg_sched.specs.Format.LineContents.{BlockLine};
ghost use Rattle.sg_sched_text.specs.Adding.{after_line};
ghost use Rattle.sg_sched_text.specs.Early.{is_kept};
ghost use Rattle.sg_sched_text.specs.TakingLines.{IsRefusedEarly, Takes};

use crate::declarations::Declared;
use crate::stop::Stop;
use sg_sched::Kind;
use sg_sched::line::Line;

impl Declared {
    /// Takes what a line says. One with which a block begins adds nothing by itself.
    pub fn take(&mut self, line: Line<'_>) -> Result<(), Stop>
        requires { IsTrue (is_form (statement line)) }
        ensures takes { Takes (after_line self.old (statement line.entry)) self.new result }
        ensures early { is_kept self.old (statement line.entry) ≡ false → IsRefusedEarly result }
    {
        match line {
            Line::Block => self.block(),
            Line::Edge { label, from, to } => self.add_edge(label, from, to),
            Line::Honest(who) => self.add_honest(who),
            Line::Key { one, two, digits } => self.add_key(one, two, digits),
            Line::Session {
                name,
                graph,
                nonce,
                names,
                version,
            } => self.add_session(name, &graph, nonce, &names, version),
            Line::Start { who, session } => self.start(who, &session),
            Line::Act {
                who,
                session,
                label,
                values,
            } => self.act(who, &session, &label, values.as_slice()),
            Line::Abandon { who, session } => self.abandon(who, &session),
            Line::Deliver { who, what } => self.deliver(who, &what),
            Line::Craft(craft) => self.craft(craft),
        }
    }

    // A block begins.
    #[tactic(auto, unfolding(crate::specs::Adding::after_line))]
    fn block(&mut self) -> Result<(), Stop>
        ensures { Takes (after_line self.old BlockLine) self.new result }
    {
        if self.group > 0 {
            return Err(Stop::Wrong(Kind::Form));
        }
        Ok(())
    }
}
