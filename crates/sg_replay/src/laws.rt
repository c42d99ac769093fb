//! What holds of all files of runs. Each function is a law: it does nothing but cite others, and its contract is the statement.
ghost use Rattle.std.specs.Prelude.{◌≤◌, ℕ};
ghost use Rattle.sg_model.specs.Limits.{most_driven, most_graph_file, most_logs_file, most_schedule_file};
ghost use Rattle.sg_ending.specs.Laws.{EndsAlways};
ghost use Rattle.sg_replay.specs.Ends.{Audits, Drives, Replays};

use sg_drive::laws::generator_ends;
use sg_world::laws::runs_of_replays;

/// Whatever a file holds, `replay`, `drive` and `audit` may end without the outside's failing: what the file asks for, or a cause to refuse it, is always
/// there.
pub fn runs_have_an_ending()
    ensures replay { EndsAlways Replays most_schedule_file }
    ensures drive { (seed sessions : ℕ) → sessions ≤ most_driven → EndsAlways (Drives seed sessions) most_graph_file }
    ensures audit { EndsAlways Audits most_logs_file }
{
    runs_of_replays();
    generator_ends();
}
