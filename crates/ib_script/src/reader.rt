//! What reads the lines of a script.

ghost use Rattle.std.specs.Prelude.{◌≡◌, ℕ, List, IfOk};
ghost use Rattle.ib_script.specs.Script.{IsLineInRange, Reading};

use crate::script_line::{ScriptLine, reading_of};
use ib_io::LineKind;

/// A reading of the lines of scripts: that of the grammar, maybe with a further test of what a line says.
pub trait LineReader {
    ghost reading: { List ℕ → Reading };

    /// What a line, without its line feed, says by itself, or what is wrong with it.
    fn read(line: &[u8]) -> Result<ScriptLine, LineKind>
        ensures reading { result ≡ reading line.now }
        ensures in_range { IfOk result IsLineInRange };
}

/// The grammar's own reading, with no further test.
#[derive(Clone, Copy, Debug)]
pub struct PlainLines;

impl LineReader for PlainLines {
    ghost use Rattle.ib_script.specs.Script.{reading_of};

    ghost reading = { reading_of };

    #[inline(always)]
    fn read(line: &[u8]) -> Result<ScriptLine, LineKind> {
        reading_of(line)
    }
}
