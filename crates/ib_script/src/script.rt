//! A script, or its first bad line.

ghost use Rattle.std.specs.Prelude.{◌≡◌, ◌≤◌, ◌-◌, ◌<◌, ◌^◌, ℕ, None, Some, Ok, Err, [], length, slice_index_or, vec_len, IfOk};
ghost use Rattle.ib_io.specs.Lines.{readings_by};
ghost use Rattle.ib_script.specs.Lists.{lists_of};
ghost use Rattle.ib_script.specs.PairScript.{pair_reading_of};
ghost use Rattle.ib_script.specs.Script.{IsScript, IsSmall, first_fault};
ghost use Rattle.ib_io.specs.declared.line_kind.LineKind.{LineKind};
ghost use Rattle.ib_io.specs.declared.line_kind.TheConstants.{MOST_SCRIPT_SESSIONS};

use crate::builder::Builder;
use crate::pair_line::PairLines;
use crate::reader::LineReader;
use crate::tally::refusal;
use ib_io::{LineFault, LineKind, MOST_SCRIPT_SESSIONS, ScriptFault, first_line};
use ib_layout::Geometry;
use ib_map::Call;
use std::alloc::Global;
use std::marker::Model;

/// A script: how large a space it asks for, and what each session does there.
#[derive(Drop)]
pub struct Script {
    geometry: Geometry,
    sessions: Vec<Vec<Call>>,
}

impl Model for Script {
    ghost use Rattle.std.specs.Prelude.{◌≤◌, vec_len};
    ghost use Rattle.ib_script.specs.Lists.{lists_of};
    ghost use Rattle.ib_script.specs.Script.{ScriptValue};
    ghost use Rattle.ib_io.specs.declared.line_kind.TheConstants.{MOST_SCRIPT_SESSIONS};

    ghost Value = { ScriptValue };

    ghost view = { λ s. record { sizes = s.geometry; commands = lists_of s.sessions.items } };

    ghost invariant = { λ s. vec_len s.sessions ≤ MOST_SCRIPT_SESSIONS };
}

impl Script {
    // The commands of each session: session n's at place n - 1.
    pub(crate) fn new(geometry: Geometry, sessions: Vec<Vec<Call>>) -> Script
        requires { vec_len sessions ≤ MOST_SCRIPT_SESSIONS }
        ensures { result ≡ record { sizes = geometry; commands = lists_of sessions.items } }
    {
        Script { geometry, sessions }
    }

    /// How large its space is: as its `space` line says, or else the largest.
    pub fn geometry(&self) -> Geometry
        ensures { result ≡ self.now.sizes }
    {
        self.geometry
    }

    /// The greatest session that has a command, at most `MOST_SCRIPT_SESSIONS`, or 0.
    pub fn sessions(&self) -> u32
        ensures sessions { result ≡ length self.now.commands }
        ensures few { result ≤ MOST_SCRIPT_SESSIONS }
    {
        self.sessions.len() as u32
    }

    /// The commands of a session, in order. Sessions are counted from 1; session 0 and those beyond the last have none.
    pub fn commands(&self, session: u32) -> &[Call]
        ensures some { 1 ≤ session → result.now ≡ slice_index_or self.now.commands (session - 1) [] }
        ensures none { session ≡ 0 → result.now ≡ [] }
    {
        if session == 0 {
            return &[];
        }
        match self.sessions.get(session as usize - 1) {
            Some(commands) => commands.as_slice(),
            None => &[],
        }
    }
}

/// The script that these bytes spell, its lines read so, or its first bad line, or want of memory. Linear in the bytes.
///
/// Lines are empty, or begin with `#`, or are `space PAGES LOGWORDS` before all others, `session N`, `insert K V`,
/// `delete K`, `get K` and `scan L H`. A bad line is told wherever it stands: want of memory comes only where no line is bad.
pub fn read_script<R: LineReader>(alloc: Global, bytes: &[u8]) -> Result<Script, ScriptFault>
    requires { length bytes.now < 2 ^ 32 - 1 }
    ensures good { IfOk result (λ _. first_fault (readings_by R.reading bytes.now) ≡ None) }
    ensures script { IfOk result (IsScript (readings_by R.reading bytes.now)) }
    ensures small { IfOk result IsSmall }
    ensures bad { (line : ℕ) (kind : LineKind) → result ≡ Err (ScriptFault.BadLine line kind) → first_fault (readings_by R.reading bytes.now) ≡ Some (line, kind) }
    ensures memory { result ≡ Err ScriptFault.OutOfMemory → first_fault (readings_by R.reading bytes.now) ≡ None }
{
    let mut builder = Builder::new(alloc);
    let mut rest = bytes;
    let mut count = 0;
    while !rest.is_empty() {
        let (line, after) = first_line(rest);
        count += 1;
        match builder.take::<R>(alloc, line) {
            Ok(()) => rest = after,
            Err(LineFault::Bad(kind)) => return Err(ScriptFault::BadLine { line: count, kind }),
            Err(LineFault::OutOfMemory) => return Err(refusal::<R>(bytes)),
        }
    }
    Ok(builder.finish())
}

/// The same of a script of two trees: `value V` stands in place of `scan L H`, and is kept as the scan of the second keys of V; a
/// key of more than 7 bytes is the kind `long`.
pub fn read_pair_script(alloc: Global, bytes: &[u8]) -> Result<Script, ScriptFault>
    requires { length bytes.now < 2 ^ 32 - 1 }
    ensures good { IfOk result (λ _. first_fault (readings_by pair_reading_of bytes.now) ≡ None) }
    ensures script { IfOk result (IsScript (readings_by pair_reading_of bytes.now)) }
    ensures small { IfOk result IsSmall }
    ensures bad { (line : ℕ) (kind : LineKind) → result ≡ Err (ScriptFault.BadLine line kind) → first_fault (readings_by pair_reading_of bytes.now) ≡ Some (line, kind) }
    ensures memory { result ≡ Err ScriptFault.OutOfMemory → first_fault (readings_by pair_reading_of bytes.now) ≡ None }
{
    read_script::<PairLines>(alloc, bytes)
}
