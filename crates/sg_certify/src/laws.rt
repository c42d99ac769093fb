//! What holds of the walks and the traces of a run's sessions. Each function is a law: it does nothing, and its contract is the statement.
ghost use Rattle.std.specs.Prelude.{ℕ, List};
ghost use Rattle.sg_protocol.specs.Texts.{IsHash};
ghost use Rattle.sg_certify.specs.Laws.{OthersPass, SessionsAreExplained, SessionsShowViews, TracesAreExplained, TracesGoOn};

/// The walk that is made of a session's events explains them. Of a run in which the assumptions hold, let beside each step that has an event
/// of the session stand a walk from the start, which shows the receiver the view of the frame, if the step took one. Then what
/// `explain` makes of these events and walks is one path of them. And each frame that was taken shows such a view, which follows from the
/// session's steps before it.
pub fn sessions_are_explained()
    ensures explained { (sha : List ℕ → List ℕ) → IsHash sha → SessionsAreExplained sha }
    ensures shown { (sha : List ℕ → List ℕ) → IsHash sha → SessionsShowViews sha }
{}

/// The same, gone through step by step: traces of the steps so far go on with an event beside a walk that shows what it took, and the walk of
/// the events of a trace of all the session's steps is one path.
pub fn traces_are_explained()
    ensures goes_on { TracesGoOn }
    ensures explained { (sha : List ℕ → List ℕ) → IsHash sha → TracesAreExplained sha }
{}

/// A step without an event leaves the traces as they are: they are those of the steps with it.
pub fn others_pass()
    ensures { OthersPass }
{}
