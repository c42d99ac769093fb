//! What a run is given: the keys, the programs and the script of the files that its arguments name.
ghost use Rattle.std.specs.Prelude.{◌≡◌, ◌+◌, ◌≤◌, Ok, IfErr, IfOk, OnOk, length, map};
ghost use Rattle.sg_model.specs.Limits.{most_program_file, most_script_file};
ghost use Rattle.sg_keys.specs.KeyFile.{SpellsKeys, key_file};
ghost use Rattle.sg_compile.specs.Loading.{IsLoadFault};
ghost use Rattle.sg_script.specs.Format.{SpellsScript};
ghost use Rattle.sg_script.specs.Script.{IsScript};
ghost use Rattle.sg_ending.specs.Files.{EndsAt, Holds};
ghost use Rattle.sg_ending.specs.Model.{ending_held};
ghost use Rattle.sg_setup.specs.Setup.{Adds, HasPrincipal, HasSetup, HoldPrograms, IsTextOf, LacksPrincipal, LacksSetup, RefusesKeys, RefusesProgram, RefusesScript, StopsAtProgram};

use sg_base::Files;
use sg_compile::{LoadFault, load};
use sg_ending::{BadProgram, Ending, read_file};
use sg_keys::{KeyFault, Keyring};
use sg_program::{AddProgramFault, Program, Programs};
use sg_script::{Script, ScriptFault, read_script};
use std::alloc::Global;

// A key file and a script have at most 1 MiB each.
const MOST_BYTES: u32 = 1_048_576;

// A program has at most 8 MiB.
const MOST_OF_A_PROGRAM: u32 = 8_388_608;

/// What a run plays by. It has its keys twice: a node takes one keyring, and the other has the addresses that frames go to.
#[derive(Drop)]
pub struct Setup {
    /// The keys.
    pub keys: Keyring,
    /// The same keys, for the node.
    pub keys_of_node: Keyring,
    /// The programs, in the order of their files.
    pub programs: Programs,
    /// The script.
    pub script: Script,
}

/// The keys, twice, and the programs of a principal.
#[derive(Drop)]
pub struct Principal {
    /// The keys.
    pub keys: Keyring,
    /// The same keys, for the node.
    pub keys_of_node: Keyring,
    /// The programs, in the order of their files.
    pub programs: Programs,
}

/// What the files of a principal hold, or how the program ends without it. The keys are read first, then the programs in order.
pub fn read_principal<'w, F: Files>(
    alloc: Global,
    keys: &'w str,
    programs: &'w [&'w str],
    files: &mut F,
) -> Result<Principal, Ending<'w>>
    ensures has { IfOk result (λ p. HasPrincipal (F.held files.old) keys.now (map (λ p. p.now) programs.now) (record { keys = p.keys; programs = p.programs })) }
    ensures same { IfOk result (λ p. p.keys_of_node ≡ p.keys) }
    ensures lacks { IfErr result (λ ending. LacksPrincipal (F.held files.old) (F.faults files.old) (F.faults files.new) keys.now (map (λ p. p.now) programs.now) (ending_held ending)) }
    ensures kept { F.held files.new ≡ F.held files.old }
    ensures no_fault { OnOk result (F.faults files.new ≡ F.faults files.old) }
{
    match read_keys(alloc, keys, files) {
        Ok(both) => match read_programs(alloc, programs, files) {
            Ok(programs) => Ok(Principal {
                keys: both.0,
                keys_of_node: both.1,
                programs,
            }),
            Err(ending) => {
                drop(both);
                Err(ending)
            }
        },
        Err(ending) => Err(ending),
    }
}

/// What the files of a run hold, or how the program ends without it. The principal is read first, then the script.
pub fn read_setup<'w, F: Files>(
    alloc: Global,
    keys: &'w str,
    script: &'w str,
    programs: &'w [&'w str],
    files: &mut F,
) -> Result<Setup, Ending<'w>>
    ensures kept { F.held files.new ≡ F.held files.old }
    ensures has { IfOk result (λ s. HasSetup (F.held files.old) (record { keys = keys.now; programs = map (λ p. p.now) programs.now; script = script.now })
        (record { keys = s.keys; programs = s.programs; script = s.script })) }
    ensures same { IfOk result (λ s. s.keys_of_node ≡ s.keys) }
    // The script is one that was read beside these programs.
    ensures script { IfOk result (λ s. IsScript s.programs s.script) }
    ensures no_fault { OnOk result (F.faults files.new ≡ F.faults files.old) }
    ensures lacks { IfErr result (λ ending. LacksSetup (F.held files.old) (F.faults files.old) (F.faults files.new)
        (record { keys = keys.now; programs = map (λ p. p.now) programs.now; script = script.now }) (ending_held ending)) }
{
    match read_principal(alloc, keys, programs, files) {
        Ok(principal) => match script_of(alloc, script, &principal.programs, files) {
            Ok(script) => Ok(with_script(principal, script)),
            Err(ending) => {
                drop(principal);
                Err(ending)
            }
        },
        Err(ending) => Err(ending),
    }
}

// What a principal plays this script by.
fn with_script(principal: Principal, script: Script) -> Setup
    ensures { result ≡ record { keys = principal.keys; keys_of_node = principal.keys_of_node; programs = principal.programs; script = script } }
{
    let Principal {
        keys,
        keys_of_node,
        programs,
    } = principal;
    Setup {
        keys,
        keys_of_node,
        programs,
        script,
    }
}

// The keys of a file, twice.
fn read_keys<'w, F: Files>(
    alloc: Global,
    file: &'w str,
    files: &mut F,
) -> Result<(Keyring, Keyring), Ending<'w>>
    ensures holds { IfOk result (λ k. Holds (F.held files.old) most_script_file file.now (λ bytes. SpellsKeys bytes k.0)) }
    ensures same { IfOk result (λ k. k.1 ≡ k.0) }
    ensures ends { IfErr result (λ ending. EndsAt (F.held files.old) (F.faults files.old) (F.faults files.new) most_script_file file.now RefusesKeys (ending_held ending)) }
    ensures kept { F.held files.new ≡ F.held files.old }
    ensures no_fault { OnOk result (F.faults files.new ≡ F.faults files.old) }
{
    match read_file(alloc, file, files, MOST_BYTES) {
        Ok(bytes) => both_of(alloc, bytes.as_slice()),
        Err(ending) => Err(ending),
    }
}

// The keys that the bytes spell, twice.
fn both_of(alloc: Global, bytes: &[u8]) -> Result<(Keyring, Keyring), Ending<'static>>
    ensures spelled { IfOk result (λ k. SpellsKeys bytes.now k.0) }
    ensures same { IfOk result (λ k. k.1 ≡ k.0) }
    ensures refused { IfErr result (λ ending. RefusesKeys bytes.now (ending_held ending)) }
{
    match keys_of(alloc, bytes) {
        Ok(keys) => match keys_of(alloc, bytes) {
            Ok(again) => Ok((keys, again)),
            Err(ending) => {
                drop(keys);
                Err(ending)
            }
        },
        Err(ending) => Err(ending),
    }
}

// The keys that the bytes spell.
fn keys_of(alloc: Global, bytes: &[u8]) -> Result<Keyring, Ending<'static>>
    ensures spelled { IfOk result (λ k. SpellsKeys bytes.now k) }
    ensures each { IfOk result (λ k. key_file bytes.now ≡ Ok k) }
    ensures refused { IfErr result (λ ending. RefusesKeys bytes.now (ending_held ending)) }
{
    match Keyring::from_toml(alloc, bytes) {
        Ok(keys) => Ok(keys),
        Err(KeyFault::OutOfMemory) => Err(Ending::NoMemory),
        Err(fault) => Err(Ending::KeysRefused { fault }),
    }
}

// The programs of files, in order, or how the program ends at the first that isn't taken.
fn read_programs<'w, F: Files>(
    alloc: Global,
    names: &'w [&'w str],
    files: &mut F,
) -> Result<Programs, Ending<'w>>
    ensures hold { IfOk result (HoldPrograms (F.held files.old) (map (λ p. p.now) names.now)) }
    ensures ends { IfErr result (λ ending. StopsAtProgram (F.held files.old) (F.faults files.old) (F.faults files.new) (map (λ p. p.now) names.now) (ending_held ending)) }
    ensures kept { F.held files.new ≡ F.held files.old }
    ensures no_fault { OnOk result (F.faults files.new ≡ F.faults files.old) }
{
    let mut programs = Programs::new(alloc);
    'files: for file in names {
        match add_program(alloc, file, files, &mut programs) {
            Ok(()) => {}
            Err(ending) => {
                drop(programs);
                return Err(ending);
            }
        }
    }
    Ok(programs)
}

// Adds the program of a file, or says how the program ends if it isn't taken.
fn add_program<'w, F: Files>(
    alloc: Global,
    file: &'w str,
    files: &mut F,
    programs: &mut Programs,
) -> Result<(), Ending<'w>>
    ensures added { OnOk result (Adds (λ p. Holds (F.held files.old) most_program_file file.now (IsTextOf p)) programs.old programs.new) }
    ensures ends { IfErr result (λ ending. EndsAt (F.held files.old) (F.faults files.old) (F.faults files.new) most_program_file file.now (RefusesProgram programs.old) (ending_held ending)) }
    ensures kept { F.held files.new ≡ F.held files.old }
    ensures no_fault { OnOk result (F.faults files.new ≡ F.faults files.old) }
{
    match read_file(alloc, file, files, MOST_OF_A_PROGRAM) {
        Ok(bytes) => put_program(alloc, bytes.as_slice(), programs),
        Err(ending) => Err(ending),
    }
}

// Adds the program whose text the bytes are.
fn put_program(alloc: Global, bytes: &[u8], programs: &mut Programs) -> Result<(), Ending<'static>>
    ensures added { OnOk result (Adds (λ p. IsTextOf p bytes.now) programs.old programs.new) }
    ensures refused { IfErr result (λ ending. RefusesProgram programs.old bytes.now (ending_held ending)) }
{
    match load(alloc, bytes) {
        Ok(program) => add(bytes, program, programs),
        Err(fault) => Err(not_loaded(bytes, fault, programs)),
    }
}

// Adds the program whose text the bytes are.
fn add(bytes: &[u8], program: Program, programs: &mut Programs) -> Result<(), Ending<'static>>
    requires { IsTextOf program bytes.now }
    ensures added { OnOk result (Adds (λ p. IsTextOf p bytes.now) programs.old programs.new) }
    ensures refused { IfErr result (λ ending. RefusesProgram programs.old bytes.now (ending_held ending)) }
{
    // The program is known by its bytes if it isn't added.
    let _ = bytes;
    let number = next_number(programs);
    let cause = BadProgram::Twice;
    match programs.add(program) {
        Ok(()) => Ok(()),
        Err((back, AddProgramFault::Twice)) => {
            drop(back);
            Err(Ending::ProgramRefused { number, cause })
        }
        Err((back, AddProgramFault::OutOfMemory)) => {
            drop(back);
            Err(Ending::NoMemory)
        }
    }
}

// How the program ends if the bytes are no program's text.
fn not_loaded(bytes: &[u8], fault: LoadFault, programs: &Programs) -> Ending<'static>
    requires { IsLoadFault bytes.now fault }
    ensures { RefusesProgram programs.now bytes.now (ending_held result) }
{
    // The bytes say that the fault is theirs.
    let _ = bytes;
    let number = next_number(programs);
    match fault {
        LoadFault::Malformed { at } => Ending::ProgramRefused {
            number,
            cause: BadProgram::Malformed { at },
        },
        LoadFault::Graph { graph, fault } => Ending::GraphRefused { graph, fault },
        LoadFault::NotTheTable { entry } => Ending::ProgramRefused {
            number,
            cause: BadProgram::NotTheTable { entry },
        },
        LoadFault::OutOfMemory => Ending::NoMemory,
    }
}

// The number of the next program, counted from 1.
fn next_number(programs: &Programs) -> usize
    ensures { result ≡ length programs.now + 1 }
{
    programs.as_slice().len() + 1
}

// The script of a file.
fn script_of<'w, F: Files>(
    alloc: Global,
    file: &'w str,
    programs: &Programs,
    files: &mut F,
) -> Result<Script, Ending<'w>>
    ensures kept { F.held files.new ≡ F.held files.old }
    ensures holds { IfOk result (λ s. Holds (F.held files.old) most_script_file file.now (λ bytes. SpellsScript programs.now bytes s)) }
    ensures script { IfOk result (IsScript programs.now) }
    ensures ends { IfErr result (λ ending. EndsAt (F.held files.old) (F.faults files.old) (F.faults files.new) most_script_file file.now (RefusesScript programs.now) (ending_held ending)) }
    ensures no_fault { OnOk result (F.faults files.new ≡ F.faults files.old) }
{
    match read_file(alloc, file, files, MOST_BYTES) {
        Ok(bytes) => script_in(alloc, bytes.as_slice(), programs),
        Err(ending) => Err(ending),
    }
}

// The script that the bytes spell beside these programs.
fn script_in(alloc: Global, bytes: &[u8], programs: &Programs) -> Result<Script, Ending<'static>>
    ensures spelled { IfOk result (λ s. SpellsScript programs.now bytes.now s) }
    ensures script { IfOk result (IsScript programs.now) }
    ensures refused { IfErr result (λ ending. RefusesScript programs.now bytes.now (ending_held ending)) }
{
    match read_script(alloc, bytes, programs) {
        Ok(script) => Ok(script),
        Err(ScriptFault::OutOfMemory) => Err(Ending::NoMemory),
        Err(fault) => Err(Ending::ScriptRefused { fault }),
    }
}
