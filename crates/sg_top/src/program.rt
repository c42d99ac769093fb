//! The program without the real objects.
ghost use Rattle.std.specs.Prelude.{◌≡◌, ◌⊎◌, map, option_map, string_bytes};
ghost use Rattle.sg_args.specs.Command.{CanBeDriven};
ghost use Rattle.sg_args.specs.Model.{command_held};
ghost use Rattle.sg_ending.specs.Model.{ending_held};
ghost use Rattle.sg_principal.specs.Outside.{IsKept, files_of, link_of, output_of};
ghost use Rattle.sg_top.specs.Outside.{objects_at_call, objects_at_return, outside_of, reported, reports_of, stream_of};
ghost use Rattle.sg_top.specs.Top.{Ends, HasPlayed, Works, unplayed, untouched_by};

use crate::file::{on_file, task_of};
use crate::objects::Objects;
use sg_args::{Command, CommandLine, Parsed};
use sg_base::{Files, Fresh, Link, Sink};
use sg_design::claims::claims;
use sg_ending::{Ending, say};
use sg_input::Input;
use sg_ledger::Disk;
use sg_principal::keep::keep;
use sg_principal::ledger::ledger;
use sg_principal::run::run;
use sg_principal::serve::serve;
use sg_principal::{NamedFiles, RunFiles, Stage};
use sg_stream::{Conns, StreamLink};
use sg_wait::TimedLink;
use std::alloc::Global;

/// Does what the arguments ask for, those after the program's name, and gives the exit status.
///
/// `check GRAPH` reads a graph from a file, compiles it for each of its roles, and writes to `out` that it is accepted, and how many views
/// each role has. `compile GRAPH ROLE` compiles it for one role and writes the program. `run KEYS SCRIPT N PROGRAM..` plays a script as
/// one principal over `link`, with random bytes from `fresh` and at most N deliveries, and writes a line for each step. `ledger FILE` makes
/// a ledger of a file of `disk`; `keep FILE KEYS SCRIPT N PROGRAM..` is `run` over the ledger of a file, to which each join is added before
/// anything of it is written or sent. `stream KEYS SCRIPT N PROGRAM..` is `run` over the connections of `stream`. `replay SCHEDULE` reads a schedule from
/// a file, compiles its graphs, runs it, and writes the report of the run. `drive SEED SESSIONS GRAPH` reads a graph, compiles it, generates a
/// run of it in SESSIONS sessions, and writes the summary. `audit LOGS` reads logs from a file, makes the checks of `check` for their graph,
/// and writes of each session whether its logs agree. `compose PARTS` reads parts from a file, expands them, checks the expansion, and writes
/// its canonical text. `claims GRAPH` reads a graph, makes the checks of `check`, and writes a text of claims that hold of it.
/// `claims GRAPH CLAIMS` reads a graph, makes the checks of `check`, reads claims of it, and writes of each whether it holds, or a walk that
/// breaks it. `serve KEYS PROGRAM..` answers the lines of `input` as one principal over `link`, or over `port` with `--tcp`, and keeps its joins in
/// the ledger of a file with `--ledger FILE`. `err` gets one line that says why the work ended so, unless the output was written or failed.
pub fn top<
    F: Files,
    O: Sink,
    E: Sink,
    L: TimedLink,
    R: Fresh,
    D: Disk,
    C: Conns,
    P: TimedLink,
    I: Input,
>(
    alloc: Global,
    args: &[String],
    files: &mut F,
    out: &mut O,
    err: &mut E,
    link: &mut L,
    fresh: &mut R,
    disk: &mut D,
    stream: &mut StreamLink<C>,
    port: &mut P,
    input: &mut I,
) -> u8
    ensures { Ends (reports_of F.Files O.Sink L.Link L.coming R.Fresh D.Disk (stream_of C.Conns) P.Link P.coming I.Input) (output_of E.Sink)
        (map string_bytes args.now)
        (outside_of files.old out.old err.old link.old fresh.old disk.old stream.old port.old input.old)
        (outside_of files.new out.new err.new link.new fresh.new disk.new stream.new port.new input.new) result }
{
    match CommandLine::new(alloc, args) {
        Ok(line) => {
            let objects = Objects {
                files,
                out,
                link,
                fresh,
                disk,
                stream,
                port,
                input,
            };
            on_line(alloc, &line, objects, err)
        }
        Err(_) => say(alloc, &Ending::NoMemory, err),
    }
}

// Does what a command line asks for.
fn on_line<
    F: Files,
    O: Sink,
    E: Sink,
    L: TimedLink,
    R: Fresh,
    D: Disk,
    S: Link,
    P: TimedLink,
    I: Input,
>(
    alloc: Global,
    line: &CommandLine<'_>,
    objects: Objects<'_, F, O, L, R, D, S, P, I>,
    err: &mut E,
) -> u8
    ensures { Ends (reports_of F.Files O.Sink L.Link L.coming R.Fresh D.Disk (link_of S.Link) P.Link P.coming I.Input) (output_of E.Sink) line.now
        (record { err = err.old; objects = objects_at_call objects.entry }) (record { err = err.new; objects = objects_at_return objects.exit }) result }
{
    match Parsed::read(alloc, line) {
        Ok(given) => {
            let ending = work(alloc, given.command(), objects);
            say(alloc, &ending, err)
        }
        Err(_) => say(alloc, &Ending::NoMemory, err),
    }
}

// Does what a command asks for, or nothing if the arguments are in no command.
fn work<'w, F: Files, O: Sink, L: TimedLink, R: Fresh, D: Disk, S: Link, P: TimedLink, I: Input>(
    alloc: Global,
    command: Option<Command<'w>>,
    objects: Objects<'_, F, O, L, R, D, S, P, I>,
) -> Ending<'w>
    requires { CanBeDriven (option_map command_held command) }
    ensures works { Works (option_map command_held command.entry)
        (reported (reports_of F.Files O.Sink L.Link L.coming R.Fresh D.Disk (link_of S.Link) P.Link P.coming I.Input) (objects_at_call objects.entry))
        (reported (reports_of F.Files O.Sink L.Link L.coming R.Fresh D.Disk (link_of S.Link) P.Link P.coming I.Input) (objects_at_return objects.exit))
        (ending_held result) }
    ensures kept { IsKept (files_of F.Files (objects_at_call objects.entry).files) (files_of F.Files (objects_at_return objects.exit).files) }
    ensures as_before { HasPlayed (option_map command_held command.entry) (ending_held result) ⊎
        (objects_at_return objects.exit ≡ unplayed (objects_at_call objects.entry) (objects_at_return objects.exit)) }
    ensures untouched { objects_at_return objects.exit ≡
        untouched_by (option_map command_held command.entry) (objects_at_call objects.entry) (objects_at_return objects.exit) }
{
    let Objects {
        files,
        out,
        link,
        fresh,
        disk,
        stream,
        port,
        input,
    } = objects;
    let Some(command) = command else {
        return Ending::NoCommand;
    };
    // Each arm returns, and is proved by itself.
    match command {
        Command::Run {
            keys,
            script,
            deliveries,
            programs,
        } => {
            let named = RunFiles {
                keys,
                programs,
                script,
            };
            return run(alloc, named, deliveries, files, Stage { out, link, fresh });
        }
        Command::Stream {
            keys,
            script,
            deliveries,
            programs,
        } => {
            let named = RunFiles {
                keys,
                programs,
                script,
            };
            let stage = Stage {
                out,
                link: stream,
                fresh,
            };
            return run(alloc, named, deliveries, files, stage);
        }
        Command::Keep {
            file,
            keys,
            script,
            deliveries,
            programs,
        } => {
            let named = RunFiles {
                keys,
                programs,
                script,
            };
            let stage = Stage { out, link, fresh };
            return keep(alloc, file, named, deliveries, files, stage, disk);
        }
        Command::Serve {
            over_tcp,
            ledger,
            keys,
            programs,
        } => {
            let named = NamedFiles {
                keys,
                programs,
                ledger,
            };
            if over_tcp {
                let stage = Stage {
                    out,
                    link: port,
                    fresh,
                };
                return serve(alloc, named, files, stage, input, disk);
            }
            return serve(alloc, named, files, Stage { out, link, fresh }, input, disk);
        }
        Command::Ledger { file } => return ledger(alloc, file, out, disk),
        Command::Claims {
            graph,
            claims: file,
        } => return claims(alloc, graph, file, files, out),
        _ => match task_of(command) {
            Some((task, file)) => return on_file(alloc, task, file, files, out),
            // Each command that is about more than one file has an arm above.
            None => return Ending::NoCommand,
        },
    }
}
