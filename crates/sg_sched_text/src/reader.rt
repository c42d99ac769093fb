//! How a text is read, line by line and block by block.
ghost use Rattle.std.specs.Prelude.{◌≡◌, ◌≢◌, ℕ, List, ◌+◌, ◌<◌, ◌≤◌, ◌^◌, false, length, IfOk, IsFalse, IsTrue, MatchResult, Ok, Err};
ghost use Rattle.sg_parse.specs.Grammar.{SpellsGraph};
ghost use Rattle.sg_sched.specs.Text.{lines};
ghost use Rattle.sg_sched.specs.Format.Forms.{is_form};
ghost use Rattle.sg_sched.specs.Format.Model.{statement};
ghost use Rattle.sg_sched_text.specs.Adding.{after_line};
ghost use Rattle.sg_sched_text.specs.Early.{begins_late, is_kept};
ghost use Rattle.sg_sched_text.specs.Plus.{nothing};
ghost use Rattle.sg_sched_text.specs.ReadSoFar.{HasRead, Opens, Says, Shows, IsFault};
ghost use Rattle.sg_sched_text.specs.TakingLines.{IsFoundEarly, IsRefused, fault_at};

use crate::block::{count_lines, split_block};
use crate::declarations::Declared;
use crate::stop::Stop;
use sg_graph::Graph;
use sg_parse::{ParseFault, parse_graph};
use sg_sched::line::Line;
use sg_sched::read_line::read_statement;
use sg_sched::{Kind, LineFault, is_skipped, line_content, split_line};
use std::alloc::Global;

/// What the lines so far declare, and how many they are.
#[derive(Drop)]
pub(crate) struct ScheduleReader {
    /// What they declare.
    pub past: Declared,
    /// The number of the last line that was read.
    pub number: u32,
    /// The number of the first edge line, if there is one.
    pub first_edge: u32,
}

impl ScheduleReader {
    /// Before the first line. It takes no memory.
    pub fn new(alloc: Global) -> ScheduleReader
        ensures past { result.past ≡ nothing }
        ensures number { result.number ≡ 0 }
    {
        ScheduleReader {
            past: Declared::new(alloc),
            number: 0,
            first_edge: 0,
        }
    }

    /// Takes the next line, or the next block, and gives what follows it.
    pub fn next<'a>(&mut self, rest: &'a [u8]) -> Result<&'a [u8], LineFault>
        requires some { 0 < length rest.now }
        requires room { self.old.number + length rest.now < 2 ^ 32 }
        ensures has_read { (bytes : List ℕ) → HasRead bytes self.old rest.now → MatchResult result (λ after. HasRead bytes self.new after.now) (IsFault bytes) }
        ensures shorter { IfOk result (λ after. (length after.now < length rest.now) × (self.new.number + length after.now ≤ self.old.number + length rest.now)) }
        ensures early { IsFalse (begins_late self.old.past (lines rest.now)) → result ≢ Err LineFault.OutOfMemory }
        ensures so_far { IsFalse (begins_late self.old.past (lines rest.now)) → IfOk result (λ after. IsFalse (begins_late self.new.past (lines after.now))) }
    {
        let (line, after) = split_line(rest);
        self.number += 1;
        if is_skipped(line_content(line)) {
            return Ok(after);
        }
        match read_statement(self.past.alloc, line) {
            Ok(Some(statement)) => match statement {
                Line::Block => {
                    self.say(Line::Block)?;
                    self.block(after)
                }
                other => {
                    self.say(other)?;
                    Ok(after)
                }
            },
            Ok(None) => Err(fault_at(self.number, Stop::Wrong(Kind::Form))),
            Err(_) => Err(LineFault::OutOfMemory),
        }
    }

    // Takes what the line of the reader's number says. One with which a block begins adds nothing by itself.
    fn say(&mut self, line: Line<'_>) -> Result<(), LineFault>
        requires { IsTrue (is_form (statement line)) }
        ensures says { Says (after_line self.old.past (statement line.entry)) self.old self.new result }
        ensures early { is_kept self.old.past (statement line.entry) ≡ false → IsFoundEarly result }
    {
        let none = self.past.has_no_edges();
        if let Err(stop) = self.past.take(line) {
            return Err(fault_at(self.number, stop));
        }
        if none {
            self.first_edge = self.number;
        }
        Ok(())
    }

    // Takes a block, from after the line with which it begins, and gives what follows it.
    fn block<'a>(&mut self, after: &'a [u8]) -> Result<&'a [u8], LineFault>
        requires room { self.old.number + length after.now < 2 ^ 32 }
        ensures has_read { (bytes : List ℕ) → Opens bytes self.old after.now → MatchResult result (λ rest. HasRead bytes self.new rest.now) (IsFault bytes) }
        ensures shorter { IfOk result (λ rest. (length rest.now ≤ length after.now) × (self.new.number + length rest.now ≤ self.old.number + length after.now)) }
    {
        match split_block(after) {
            Some(block) => {
                self.number += block.count + 1;
                self.show(block.text)?;
                Ok(block.rest)
            }
            None => Err(LineFault::Line {
                line: self.number + count_lines(after),
                kind: Kind::Form,
            }),
        }
    }

    // Takes the graph of a block that ends at the line of the reader's number.
    fn show(&mut self, text: &[u8]) -> Result<(), LineFault>
        ensures { Shows text.now self.old self.new result }
    {
        let graph = match graph_of(self.past.alloc, text) {
            Ok(graph) => graph,
            Err(stop) => return Err(fault_at(self.number, stop)),
        };
        let name = graph.name();
        if self.past.has_block(&name) {
            drop(graph);
            return Err(fault_at(self.number, Stop::Wrong(Kind::Twice)));
        }
        if self.past.is_pair(&name) {
            drop(graph);
            return Err(fault_at(self.first_edge, Stop::Wrong(Kind::Twice)));
        }
        match self.past.add_block(graph) {
            Ok(()) => Ok(()),
            Err(_) => Err(LineFault::OutOfMemory),
        }
    }
}

// The graph of a text.
fn graph_of(alloc: Global, text: &[u8]) -> Result<Graph, Stop>
    ensures { MatchResult result (SpellsGraph text.now) (IsRefused text.now) }
{
    match parse_graph(alloc, text) {
        Ok(graph) => Ok(graph),
        Err(ParseFault::OutOfMemory) => Err(Stop::OutOfMemory),
        Err(fault) => Err(Stop::Wrong(Kind::Graph(fault))),
    }
}

// Why the line of a number isn't taken.
fn fault_at(line: u32, stop: Stop) -> LineFault
    ensures { result ≡ fault_at line stop }
{
    match stop {
        Stop::Wrong(kind) => LineFault::Line { line, kind },
        Stop::OutOfMemory => LineFault::OutOfMemory,
    }
}
