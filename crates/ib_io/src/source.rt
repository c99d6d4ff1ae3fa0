//! Where bytes come from.

ghost use Rattle.std.specs.Prelude.{ℕ, List};
ghost use Rattle.std.specs.declared.option.Option.{Option};
ghost use Rattle.std.specs.Io.{ReadsAtMost};
ghost use Rattle.std.specs.Io.KnownBytes.{ReadConsumes};
ghost use Rattle.ib_io.specs.Faults.{HasCause};

use crate::sink::Failed;

/// Where bytes come from: what it has left, where that is known, and how often it failed.
pub trait Source {
    ghost left: { Self → Option (List ℕ) };

    ghost faults: { Self → ℕ };

    /// Moves the next bytes into the front of `buf` and says how many: 0 for a `buf` that isn't
    /// empty is the end of the input. `Failed` has taken nothing, and has raised the count of faults, which stays where the call succeeds.
    fn read(&mut self, buf: &mut [u8]) -> Result<usize, Failed>
        ensures bound { ReadsAtMost result buf.new }
        ensures bytes { ReadConsumes (left self.old) (left self.new) result buf.new }
        ensures cause { HasCause (faults self.old) (faults self.new) result };
}
