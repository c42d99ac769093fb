//! The arguments, as `clap` gives them back.
ghost use Rattle.std.specs.Prelude.{◌≡◌, IfErr, IfOk, drop, map, option_map, string_bytes};
ghost use Rattle.clap.specs.Words.{kind_of};
ghost use Rattle.sg_args.specs.Command.{command_of};
ghost use Rattle.sg_args.specs.Model.{command_held};
ghost use Rattle.sg_args.specs.Parsed.{IsBehindDashes, args_found};

use crate::command::{Command, read_command};
use clap::error::ErrorKind;
use clap::{Arg, ArgAction, ArgMatches, Error};
use sg_base::OutOfMemory;
use std::alloc::{AllocError, Global};
use std::marker::Model;

/// A command line: arguments after the program's name and `--`. A clause sees it as the arguments.
#[derive(Drop)]
pub struct CommandLine<'w> {
    all: Vec<&'w str>,
}

impl<'w> Model for CommandLine<'w> {
    ghost use Rattle.std.specs.Prelude.{ℕ, List, drop, map};

    ghost Value = { List (List ℕ) };

    ghost use Rattle.sg_args.specs.Parsed.{IsBehindDashes};

    ghost view = { λ l. drop 2 (map (λ s. s.now) l.all.items) };

    ghost invariant = { λ l. IsBehindDashes (map (λ s. s.now) l.all.items) };
}

impl<'w> CommandLine<'w> {
    /// The command line of these arguments.
    pub fn new(alloc: Global, args: &'w [String]) -> Result<CommandLine<'w>, OutOfMemory>
        ensures { IfOk result (λ l. l ≡ map string_bytes args.now) }
    {
        let mut all = Vec::new(alloc);
        all.push("sessiongraph")?;
        all.push("--")?;
        for arg in args {
            all.push(arg.as_str())?;
        }
        Ok(CommandLine { all })
    }
}

/// The arguments of a command line, as `clap` reads them. A clause sees them as a list.
#[derive(Drop)]
pub struct Parsed<'w> {
    matches: ArgMatches<'w>,
}

impl<'w> Model for Parsed<'w> {
    ghost use Rattle.std.specs.Prelude.{ℕ, List};

    ghost Value = { List (List ℕ) };

    ghost use Rattle.sg_args.specs.Parsed.{args_found};

    ghost view = { λ g. args_found g.matches };
}

impl<'g> Parsed<'g> {
    /// What `clap` reads of a command line, which are its arguments, whatever they are.
    pub fn read<'w>(alloc: Global, line: &'g CommandLine<'w>) -> Result<Parsed<'g>, OutOfMemory>
        ensures { IfOk result (λ g. g ≡ line.now) }
    {
        let matches = matches(alloc, line.all.as_slice()).map_err(|_| AllocError)?;
        Ok(Parsed { matches })
    }

    /// The command that the arguments ask for, or `None` if they are not in the table of commands. It takes no memory.
    pub fn command(&self) -> Option<Command<'_>>
        ensures { option_map command_held result ≡ command_of self.now }
    {
        match self.matches.get_strs("WORD") {
            Some(args) => read_command(args),
            None => None,
        }
    }
}

// What `clap` makes of arguments after `--`: it refuses none.
fn matches<'w>(alloc: Global, args: &'w [&'w str]) -> Result<ArgMatches<'w>, Error>
    requires { IsBehindDashes (map (λ s. s.now) args.now) }
    ensures err { IfErr result (λ e. kind_of e ≡ ErrorKind.OutOfMemory) }
    ensures args { IfOk result (λ m. args_found m ≡ drop 2 (map (λ s. s.now) args.now)) }
{
    let arg = Arg::new(alloc, "WORD").action(ArgAction::Append);
    let command = clap::Command::new(alloc, "sessiongraph").arg(arg)?;
    command.try_get_matches_from(args)
}
