//! What the lines of a script have said so far, and what one more says behind them.

ghost use Rattle.std.specs.Prelude.{ℕ, ◌≤◌, vec_len};
ghost use Rattle.ib_script.specs.declared.script_line.TheConstants.{MOST_COMMANDS, MOST_SCANS};
ghost use Rattle.ib_io.specs.declared.line_kind.TheConstants.{MOST_SCRIPT_SESSIONS};

use crate::lists::add_command;
use crate::reader::LineReader;
use crate::script::Script;
use crate::script_line::{MOST_COMMANDS, MOST_SCANS, ScriptLine, is_scan};
use ib_io::{LineFault, LineKind};
use ib_layout::Geometry;
use ib_map::Call;
use std::alloc::Global;

// What the lines of a script have said so far.
#[derive(Drop)]
pub struct Builder {
    // whether one of them said anything
    pub started: bool,
    pub geometry: Geometry,
    // the session of the next command
    pub session: u32,
    // the commands of each session: session n's at place n - 1
    pub sessions: Vec<Vec<Call>>,
    // how many commands and how many scans there are
    pub commands: u32,
    pub scans: u32,
    ghost session_in_range: { (1 ≤ session) × (session ≤ MOST_SCRIPT_SESSIONS) },
    ghost few_sessions: { vec_len sessions ≤ MOST_SCRIPT_SESSIONS },
    ghost few_commands: { commands ≤ MOST_COMMANDS },
    ghost few_scans: { scans ≤ MOST_SCANS },
}

impl Builder {
    ghost use Rattle.std.specs.Prelude.{◌≡◌, ◌<◌, ◌∷◌, ◌++◌, [], Ok, true, false, not, List};
    ghost use Rattle.ib_script.specs.Script.{IsLineInRange, IsSmall, Reading, has_room, is_scan};
    ghost use Rattle.ib_script.specs.Building.{IsBuilt, Takes};
    ghost use Rattle.ib_script.specs.Lists.{lists_of};
    ghost use Rattle.ib_script.specs.declared.script_line.TheConstants.{MOST_COMMANDS, MOST_SCANS};
    ghost use Rattle.ib_io.specs.declared.line_kind.TheConstants.{MOST_SCRIPT_SESSIONS};
    ghost use Rattle.ib_script.specs.declared.script_line.ScriptLine.TheVariants.{Command, Session, Skipped, Space};

    // No line is read.
    pub fn new(alloc: Global) -> Builder
        ensures { IsBuilt [] result }
    {
        Builder {
            started: false,
            geometry: Geometry::largest(),
            session: 1,
            sessions: Vec::new(alloc),
            commands: 0,
            scans: 0,
        }
    }

    fn take_session(&mut self, number: u32)
        requires { IsLineInRange (Session number) }
        ensures { (before : List Reading) → IsBuilt before self.old → IsBuilt (before ++ Ok (Session number) ∷ []) self.new }
    {
        self.session = number;
        self.started = true;
    }

    fn take_space(&mut self, geometry: Geometry) -> Result<(), LineFault>
        ensures { Takes (Ok (Space geometry)) self.old result self.new }
    {
        if self.started {
            return Err(LineFault::Bad(LineKind::Space));
        }
        self.geometry = geometry;
        self.started = true;
        Ok(())
    }

    // Whether this command would be one too many.
    fn is_full(&self, call: Call) -> bool
        ensures full { (before : List Reading) → IsBuilt before self.now → has_room before (is_scan (Ok (Command call))) ≡ not result }
        ensures commands { result ≡ false → self.now.commands < MOST_COMMANDS }
        ensures scans { result ≡ false → is_scan (Ok (Command call)) ≡ true → self.now.scans < MOST_SCANS }
    {
        self.commands == MOST_COMMANDS || (is_scan(call) && self.scans == MOST_SCANS)
    }

    fn take_command(&mut self, alloc: Global, call: Call) -> Result<(), LineFault>
        ensures { Takes (Ok (Command call)) self.old result self.new }
    {
        if self.is_full(call) {
            return Err(LineFault::Bad(LineKind::Many));
        }
        add_command(alloc, &mut self.sessions, self.session as usize, call)?;
        self.commands += 1;
        self.scans += u32::from(is_scan(call));
        self.started = true;
        Ok(())
    }

    #[inline(always)]
    fn take_reading(&mut self, alloc: Global, line: ScriptLine) -> Result<(), LineFault>
        requires { IsLineInRange line }
        ensures { Takes (Ok line) self.old result self.new }
    {
        match line {
            ScriptLine::Skipped => Ok(()),
            ScriptLine::Session { number } => {
                self.take_session(number);
                Ok(())
            }
            ScriptLine::Space { geometry } => self.take_space(geometry),
            ScriptLine::Command { call } => self.take_command(alloc, call),
        }
    }

    // One line more, read so, where nothing is wrong with it.
    pub fn take<R: LineReader>(&mut self, alloc: Global, line: &[u8]) -> Result<(), LineFault>
        ensures { Takes (R.reading line.now) self.old result self.new }
    {
        let line = R::read(line)?;
        self.take_reading(alloc, line)
    }

    // What all lines say.
    pub fn finish(self) -> Script
        ensures value { result ≡ record { sizes = self.geometry; commands = lists_of self.sessions.items } }
        ensures few { (before : List Reading) → IsBuilt before self → IsSmall result }
    {
        Script::new(self.geometry, self.sessions)
    }
}
