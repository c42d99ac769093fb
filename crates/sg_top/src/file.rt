//! The commands on one file: each reads it whole, and is what is done with its bytes.
ghost use Rattle.std.specs.Prelude.{◌≡◌, ◌≤◌, IfNone, IfSome, length};
ghost use Rattle.sg_args.specs.Model.{command_held};
ghost use Rattle.sg_ending.specs.Files.{OnFile};
ghost use Rattle.sg_ending.specs.Model.{ending_held};
ghost use Rattle.sg_principal.specs.Outside.{output_of};
ghost use Rattle.sg_top.specs.File.{CanBeDone, IsAboutMore, asking, done, most_of};

use sg_args::Command;
use sg_base::{Files, Sink};
use sg_design::check::check;
use sg_design::compile::compile;
use sg_design::compose::compose;
use sg_design::suggest::suggest;
use sg_ending::{Ending, MOST_GRAPH_BYTES, read_file};
use sg_replay::audit::{MOST_LOG_BYTES, audit};
use sg_replay::drive::drive;
use sg_replay::replay::{MOST_SCHEDULE_BYTES, replay};
use std::alloc::Global;

/// What is done with the bytes of a file.
#[derive(Clone, Copy)]
pub enum Task<'w> {
    /// The graph is checked.
    Check,
    /// The graph is compiled for the role of this name.
    Compile { role: &'w str },
    /// The schedule is replayed.
    Replay,
    /// A run of the graph is generated, and summed up.
    Drive { seed: u32, sessions: u32 },
    /// The logs are audited.
    Audit,
    /// The parts are expanded.
    Compose,
    /// Claims of the graph are suggested.
    Suggest,
}

/// What a command on one file does with its bytes, and this file; or `None` if the command is about more.
pub fn task_of<'w>(command: Command<'w>) -> Option<(Task<'w>, &'w str)>
    ensures one { IfSome result (λ t. command_held command.entry ≡ asking t.0 t.1.now) }
    ensures more { IfNone result (IsAboutMore (command_held command.entry)) }
{
    match command {
        Command::Check { file } => Some((Task::Check, file)),
        Command::Compile { file, role } => Some((Task::Compile { role }, file)),
        Command::Replay { file } => Some((Task::Replay, file)),
        Command::Drive {
            seed,
            sessions,
            file,
        } => Some((Task::Drive { seed, sessions }, file)),
        Command::Audit { file } => Some((Task::Audit, file)),
        Command::Compose { file } => Some((Task::Compose, file)),
        Command::Suggest { file } => Some((Task::Suggest, file)),
        _ => None,
    }
}

/// Reads a file whole and does this with its bytes, or says how the program ends without them.
pub fn on_file<'w, F: Files, O: Sink>(
    alloc: Global,
    task: Task<'w>,
    file: &'w str,
    files: &mut F,
    out: &mut O,
) -> Ending<'w>
    requires { CanBeDone task }
    ensures kept { F.held files.new ≡ F.held files.old }
    ensures ends { OnFile (done task.entry) (most_of task.entry) file.now (F.held files.old) (F.faults files.old) (F.faults files.new)
        (output_of O.Sink out.old) (output_of O.Sink out.new) (ending_held result) }
{
    match read_file(alloc, file, files, most_bytes(task)) {
        Ok(bytes) => on_bytes(alloc, task, bytes.as_slice(), out),
        Err(ending) => ending,
    }
}

// The most bytes that the file may have.
fn most_bytes(task: Task<'_>) -> u32
    ensures { result ≡ most_of task.entry }
{
    match task {
        Task::Replay => MOST_SCHEDULE_BYTES,
        Task::Audit => MOST_LOG_BYTES,
        _ => MOST_GRAPH_BYTES,
    }
}

// Does this with the bytes.
fn on_bytes<'w, O: Sink>(alloc: Global, task: Task<'w>, bytes: &[u8], out: &mut O) -> Ending<'w>
    requires can { CanBeDone task }
    requires few { length bytes.now ≤ most_of task }
    ensures { done task.entry bytes.now (output_of O.Sink out.old) (output_of O.Sink out.new) (ending_held result) }
{
    match task {
        Task::Check => check(alloc, bytes, out),
        Task::Compile { role } => compile(alloc, bytes, role, out),
        Task::Replay => replay(alloc, bytes, out),
        Task::Drive { seed, sessions } => drive(alloc, seed, sessions, bytes, out),
        Task::Audit => audit(alloc, bytes, out),
        Task::Compose => compose(alloc, bytes, out),
        Task::Suggest => suggest(alloc, bytes, out),
    }
}
