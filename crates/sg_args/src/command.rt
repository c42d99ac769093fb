//! What the arguments of the command line ask for.
ghost use Rattle.std.specs.Prelude.{◌≡◌, map, option_map};
ghost use Rattle.std.specs.List.{list_any};
ghost use Rattle.sg_base.specs.Words.{number};
ghost use Rattle.sg_model.specs.Limits.{most_deliveries};
ghost use Rattle.sg_args.specs.Command.{command_of, drive, driving, few, is_option, keeping, ledger_or, named, on_file, on_ledger, on_two, plain, principal_of, running, serving, serving_over, sessions_of, streaming, tcp_or};
ghost use Rattle.sg_args.specs.Model.{command_held, principal_held};

use sg_base::read_number;

/// A command, with the arguments that it names.
#[derive(Clone, Copy)]
pub enum Command<'w> {
    /// Checks a graph.
    Check {
        /// The file of the graph.
        file: &'w str,
    },
    /// Compiles a graph for a role.
    Compile {
        /// The file of the graph.
        file: &'w str,
        /// The role's name.
        role: &'w str,
    },
    /// Runs one principal.
    Run {
        /// The key file.
        keys: &'w str,
        /// The file of the script.
        script: &'w str,
        /// How many deliveries are taken at most, up to 1,000,000.
        deliveries: u32,
        /// The files of the programs, at least one.
        programs: &'w [&'w str],
    },
    /// Replays a schedule.
    Replay {
        /// The file of the schedule.
        file: &'w str,
    },
    /// Generates a run of a graph, and sums it up.
    Drive {
        /// The seed that chooses the run.
        seed: u32,
        /// How many sessions the run has, from 1 to 2,000.
        sessions: u32,
        /// The file of the graph.
        file: &'w str,
    },
    /// Makes a ledger of joins.
    Ledger {
        /// The file of the ledger.
        file: &'w str,
    },
    /// Runs one principal, and keeps its joins in a ledger.
    Keep {
        /// The file of the ledger.
        file: &'w str,
        /// The key file.
        keys: &'w str,
        /// The file of the script.
        script: &'w str,
        /// How many deliveries are taken at most, up to 1,000,000.
        deliveries: u32,
        /// The files of the programs, at least one.
        programs: &'w [&'w str],
    },
    /// Runs one principal over connections.
    Stream {
        /// The key file.
        keys: &'w str,
        /// The file of the script.
        script: &'w str,
        /// How many deliveries are taken at most, up to 1,000,000.
        deliveries: u32,
        /// The files of the programs, at least one.
        programs: &'w [&'w str],
    },
    /// Audits logs.
    Audit {
        /// The file of the logs.
        file: &'w str,
    },
    /// Expands parts.
    Compose {
        /// The file of the parts.
        file: &'w str,
    },
    /// Suggests claims of a graph.
    Suggest {
        /// The file of the graph.
        file: &'w str,
    },
    /// Decides claims of a graph.
    Claims {
        /// The file of the graph.
        graph: &'w str,
        /// The file of the claims.
        claims: &'w str,
    },
    /// Runs one principal for an application.
    Serve {
        /// Over connections, in place of datagrams.
        over_tcp: bool,
        /// The file of the ledger in which its joins are kept, if they are.
        ledger: Option<&'w str>,
        /// The key file.
        keys: &'w str,
        /// The files of the programs, at least one.
        programs: &'w [&'w str],
    },
}

// What one principal runs with.
#[derive(Clone, Copy)]
struct Principal<'w> {
    keys: &'w str,
    script: &'w str,
    deliveries: u32,
    programs: &'w [&'w str],
}

/// The command, or `None` if the arguments are not in the table of commands. It takes no memory.
pub fn read_command<'w>(args: &'w [&'w str]) -> Option<Command<'w>>
    ensures { option_map command_held result ≡ command_of (map (λ s. s.now) args.now) }
{
    match args {
        [name, rest @ ..] => match *name {
            "serve" => serving(rest),
            _ => plain(args),
        },
        _ => None,
    }
}

// The command of arguments of which none begins with `-`.
fn plain<'w>(args: &'w [&'w str]) -> Option<Command<'w>>
    ensures { option_map command_held result ≡ plain (map (λ s. s.now) args.now) }
{
    if has_option(args) {
        return None;
    }
    match args {
        [name, rest @ ..] => named(name, rest),
        _ => None,
    }
}

// The command that runs one principal for an application.
fn serving<'w>(args: &'w [&'w str]) -> Option<Command<'w>>
    ensures { option_map command_held result ≡ serving (map (λ s. s.now) args.now) }
{
    match args {
        [arg, rest @ ..] => match *arg {
            "--tcp" => ledger_or(true, rest),
            _ => ledger_or(false, args),
        },
        _ => None,
    }
}

// So over connections or not, if `--ledger` and its file may come first.
fn ledger_or<'w>(over_tcp: bool, args: &'w [&'w str]) -> Option<Command<'w>>
    ensures { option_map command_held result ≡ ledger_or over_tcp (map (λ s. s.now) args.now) }
{
    match args {
        [arg, rest @ ..] => match *arg {
            "--ledger" => on_ledger(over_tcp, rest),
            _ => serving_over(over_tcp, None, args),
        },
        _ => None,
    }
}

// So on the ledger of the first argument, behind which `--tcp` may stand.
fn on_ledger<'w>(over_tcp: bool, args: &'w [&'w str]) -> Option<Command<'w>>
    ensures { option_map command_held result ≡ on_ledger over_tcp (map (λ s. s.now) args.now) }
{
    match args {
        [file, rest @ ..] => {
            if begins_with_dash(file) {
                return None;
            }
            if over_tcp {
                serving_over(true, Some(file), rest)
            } else {
                tcp_or(file, rest)
            }
        }
        _ => None,
    }
}

// So on this ledger, if `--tcp` may come first.
fn tcp_or<'w>(file: &'w str, args: &'w [&'w str]) -> Option<Command<'w>>
    ensures { option_map command_held result ≡ tcp_or file.now (map (λ s. s.now) args.now) }
{
    match args {
        [arg, rest @ ..] => match *arg {
            "--tcp" => serving_over(true, Some(file), rest),
            _ => serving_over(false, Some(file), args),
        },
        _ => None,
    }
}

// So with its keys and programs.
fn serving_over<'w>(
    over_tcp: bool,
    ledger: Option<&'w str>,
    args: &'w [&'w str],
) -> Option<Command<'w>>
    ensures { option_map command_held result ≡ serving_over over_tcp (option_map (λ s. s.now) ledger.entry) (map (λ s. s.now) args.now) }
{
    if has_option(args) {
        return None;
    }
    match args {
        [keys, programs @ ..] if programs.len() > 0 => Some(Command::Serve {
            over_tcp,
            ledger,
            keys,
            programs,
        }),
        _ => None,
    }
}

// The command of this name, with these arguments after it.
fn named<'w>(name: &str, args: &'w [&'w str]) -> Option<Command<'w>>
    ensures { option_map command_held result ≡ named name.now (map (λ s. s.now) args.now) }
{
    match name {
        "run" => running(args),
        "drive" => driving(args),
        "keep" => keeping(args),
        "stream" => streaming(args),
        name => few(name, args),
    }
}

// The keys, the script, how many deliveries are taken at most, and one program or more.
fn principal_of<'w>(args: &'w [&'w str]) -> Option<Principal<'w>>
    ensures { option_map principal_held result ≡ principal_of (map (λ s. s.now) args.now) }
{
    match args {
        [keys, script, deliveries, programs @ ..] if programs.len() > 0 => {
            let deliveries = deliveries_of(deliveries)?;
            Some(Principal {
                keys,
                script,
                deliveries,
                programs,
            })
        }
        _ => None,
    }
}

// The command that runs one principal.
fn running<'w>(args: &'w [&'w str]) -> Option<Command<'w>>
    ensures { option_map command_held result ≡ running (map (λ s. s.now) args.now) }
{
    let principal = principal_of(args)?;
    Some(Command::Run {
        keys: principal.keys,
        script: principal.script,
        deliveries: principal.deliveries,
        programs: principal.programs,
    })
}

// The command that generates a run.
fn driving<'w>(args: &'w [&'w str]) -> Option<Command<'w>>
    ensures { option_map command_held result ≡ driving (map (λ s. s.now) args.now) }
{
    match args {
        [seed, sessions, file] => drive(seed, sessions, file),
        _ => None,
    }
}

// So with this seed, this number of sessions and this file.
fn drive<'w>(seed: &str, sessions: &str, file: &'w str) -> Option<Command<'w>>
    ensures { option_map command_held result ≡ drive seed.now sessions.now file.now }
{
    let seed = read_number(seed.as_bytes(), 4_294_967_295)? as u32;
    let sessions = sessions_of(sessions)?;
    Some(Command::Drive {
        seed,
        sessions,
        file,
    })
}

// The command that runs one principal and keeps its joins.
fn keeping<'w>(args: &'w [&'w str]) -> Option<Command<'w>>
    ensures { option_map command_held result ≡ keeping (map (λ s. s.now) args.now) }
{
    let (file, rest) = args.split_first()?;
    let principal = principal_of(rest)?;
    Some(Command::Keep {
        file: *file,
        keys: principal.keys,
        script: principal.script,
        deliveries: principal.deliveries,
        programs: principal.programs,
    })
}

// The command that runs one principal over connections.
fn streaming<'w>(args: &'w [&'w str]) -> Option<Command<'w>>
    ensures { option_map command_held result ≡ streaming (map (λ s. s.now) args.now) }
{
    let principal = principal_of(args)?;
    Some(Command::Stream {
        keys: principal.keys,
        script: principal.script,
        deliveries: principal.deliveries,
        programs: principal.programs,
    })
}

// How many sessions an argument asks for, from 1 to 2,000.
fn sessions_of(arg: &str) -> Option<u32>
    ensures { result ≡ sessions_of arg.now }
{
    let sessions = read_number(arg.as_bytes(), 2_000)? as u32;
    if sessions > 0 { Some(sessions) } else { None }
}

// How many deliveries are taken at most.
fn deliveries_of(arg: &str) -> Option<u32>
    ensures { result ≡ number most_deliveries arg.now }
{
    Some(read_number(arg.as_bytes(), 1_000_000)? as u32)
}

// The command of this name that takes one argument or two.
fn few<'w>(name: &str, args: &'w [&'w str]) -> Option<Command<'w>>
    ensures { option_map command_held result ≡ few name.now (map (λ s. s.now) args.now) }
{
    match args {
        [file] => on_file(name, file),
        [first, second] => on_two(name, first, second),
        _ => None,
    }
}

// The command of this name that takes a file.
fn on_file<'w>(name: &str, file: &'w str) -> Option<Command<'w>>
    ensures { option_map command_held result ≡ on_file name.now file.now }
{
    match name {
        "check" => Some(Command::Check { file }),
        "replay" => Some(Command::Replay { file }),
        "ledger" => Some(Command::Ledger { file }),
        "audit" => Some(Command::Audit { file }),
        "compose" => Some(Command::Compose { file }),
        "claims" => Some(Command::Suggest { file }),
        _ => None,
    }
}

// The command of this name that takes two arguments.
fn on_two<'w>(name: &str, first: &'w str, second: &'w str) -> Option<Command<'w>>
    ensures { option_map command_held result ≡ on_two name.now first.now second.now }
{
    match name {
        "compile" => Some(Command::Compile {
            file: first,
            role: second,
        }),
        "claims" => Some(Command::Claims {
            graph: first,
            claims: second,
        }),
        _ => None,
    }
}

// An argument begins with `-`.
fn has_option(args: &[&str]) -> bool
    ensures { result ≡ list_any is_option (map (λ s. s.now) args.now) }
{
    for arg in args {
        if begins_with_dash(arg) {
            return true;
        }
    }
    false
}

fn begins_with_dash(arg: &str) -> bool
    ensures { result ≡ is_option arg.now }
{
    arg.as_bytes().first().copied() == Some(b'-')
}
