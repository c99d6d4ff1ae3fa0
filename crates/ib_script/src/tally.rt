//! Which line of a script is the first bad one, where nothing of it is kept: so no memory is asked for.

ghost use Rattle.std.specs.Prelude.{◌≡◌, ◌≤◌, ◌-◌, ◌<◌, ◌^◌, ◌+◌, ℕ, None, Some, Ok, [], length};
ghost use Rattle.ib_io.specs.Lines.{readings_by};
ghost use Rattle.ib_io.specs.declared.line_kind.LineKind.{LineKind};
ghost use Rattle.ib_script.specs.Script.{first_fault};
ghost use Rattle.ib_script.specs.declared.script_line.TheConstants.{MOST_COMMANDS, MOST_SCANS};

use crate::reader::LineReader;
use crate::script_line::{MOST_COMMANDS, MOST_SCANS, ScriptLine, is_scan};
use ib_io::{LineKind, ScriptFault, first_line};
use ib_map::Call;

// What a further line is tested against.
#[derive(Drop)]
struct Tally {
    // whether a line before said anything
    started: bool,
    // how many commands and how many scans there are
    commands: u32,
    scans: u32,
    ghost few_commands: { commands ≤ MOST_COMMANDS },
    ghost few_scans: { scans ≤ MOST_SCANS },
}

impl Tally {
    ghost use Rattle.std.specs.Prelude.{◌≡◌, ◌<◌, ◌∷◌, ◌++◌, ℕ, [], Ok, true, false, not, List};
    ghost use Rattle.ib_layout.specs.Geometry.{Sizes};
    ghost use Rattle.ib_script.specs.Script.{Reading, has_room, is_scan};
    ghost use Rattle.ib_script.specs.Tallies.{Counts, IsTallied};
    ghost use Rattle.ib_script.specs.declared.script_line.TheConstants.{MOST_COMMANDS, MOST_SCANS};
    ghost use Rattle.ib_script.specs.declared.script_line.ScriptLine.TheVariants.{Command, Session, Skipped, Space};

    // No line is read.
    fn new() -> Tally
        ensures { IsTallied [] result }
    {
        Tally {
            started: false,
            commands: 0,
            scans: 0,
        }
    }

    fn count_session(&mut self)
        ensures { (number : ℕ) (before : List Reading) → IsTallied before self.old → IsTallied (before ++ Ok (Session number) ∷ []) self.new }
    {
        self.started = true;
    }

    fn count_space(&mut self) -> Result<(), LineKind>
        ensures { (sizes : Sizes) → Counts (Ok (Space sizes)) self.old result self.new }
    {
        if self.started {
            return Err(LineKind::Space);
        }
        self.started = true;
        Ok(())
    }

    // Whether this command would be one too many.
    fn is_full(&self, call: Call) -> bool
        ensures full { (before : List Reading) → IsTallied before self.now → has_room before (is_scan (Ok (Command call))) ≡ not result }
        ensures commands { result ≡ false → self.now.commands < MOST_COMMANDS }
        ensures scans { result ≡ false → is_scan (Ok (Command call)) ≡ true → self.now.scans < MOST_SCANS }
    {
        self.commands == MOST_COMMANDS || (is_scan(call) && self.scans == MOST_SCANS)
    }

    fn count_command(&mut self, call: Call) -> Result<(), LineKind>
        ensures { Counts (Ok (Command call)) self.old result self.new }
    {
        if self.is_full(call) {
            return Err(LineKind::Many);
        }
        self.commands += 1;
        self.scans += u32::from(is_scan(call));
        self.started = true;
        Ok(())
    }

    fn count_reading(&mut self, line: ScriptLine) -> Result<(), LineKind>
        ensures { Counts (Ok line) self.old result self.new }
    {
        match line {
            ScriptLine::Skipped => Ok(()),
            ScriptLine::Session { .. } => {
                self.count_session();
                Ok(())
            }
            ScriptLine::Space { .. } => self.count_space(),
            ScriptLine::Command { call } => self.count_command(call),
        }
    }

    // One line more, read so, where nothing is wrong with it.
    fn count<R: LineReader>(&mut self, line: &[u8]) -> Result<(), LineKind>
        ensures { Counts (R.reading line.now) self.old result self.new }
    {
        let line = R::read(line)?;
        self.count_reading(line)
    }
}

// Why these bytes are not read where memory ran out: the first bad line, wherever it stands, or else the want of memory.
#[cold]
pub fn refusal<R: LineReader>(bytes: &[u8]) -> ScriptFault
    requires { length bytes.now < 2 ^ 32 - 1 }
    ensures bad { (line : ℕ) (kind : LineKind) → result ≡ ScriptFault.BadLine line kind → first_fault (readings_by R.reading bytes.now) ≡ Some (line, kind) }
    ensures memory { result ≡ ScriptFault.OutOfMemory → first_fault (readings_by R.reading bytes.now) ≡ None }
{
    let mut tally = Tally::new();
    let mut rest = bytes;
    let mut count = 0;
    while !rest.is_empty() {
        let (line, after) = first_line(rest);
        count += 1;
        match tally.count::<R>(line) {
            Ok(()) => rest = after,
            Err(kind) => return ScriptFault::BadLine { line: count, kind },
        }
    }
    ScriptFault::OutOfMemory
}
