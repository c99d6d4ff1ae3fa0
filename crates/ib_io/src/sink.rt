//! Where bytes go.

ghost use Rattle.std.specs.Prelude.{◌<◌, ℕ, List, length, IfOk};
ghost use Rattle.std.specs.declared.option.Option.{Option};
ghost use Rattle.std.specs.Io.{WritesAtMost};
ghost use Rattle.std.specs.Io.KnownBytes.{WriteAppends};
ghost use Rattle.ib_io.specs.Faults.{AppendsAll, HasCause};

/// A call on a source or a sink failed, and that object's count of faults rose. A `read` or `write` has then moved nothing.
#[derive(Clone, Copy, Debug, PartialEq, Eq)]
pub struct Failed;

/// Where bytes go: what has been written to it, where that is known, and how often it failed.
pub trait Sink {
    ghost written: { Self → Option (List ℕ) };

    ghost faults: { Self → ℕ };

    /// Takes a front of `buf` and says its length: at least one byte, unless `buf` is empty.
    /// `Failed` has taken nothing, and has raised the count of faults, which stays where the call succeeds.
    fn write(&mut self, buf: &[u8]) -> Result<usize, Failed>
        ensures bound { WritesAtMost result buf.now }
        ensures moves { IfOk result (λ count. 0 < length buf.now → 0 < count) }
        ensures bytes { WriteAppends (written self.old) (written self.new) result buf.now }
        ensures cause { HasCause (faults self.old) (faults self.new) result };
}

/// Writes all of `bytes`, in as many calls as the sink wants. At `Failed` it wrote a front of them.
pub fn write_all<K: Sink>(sink: &mut K, bytes: &[u8]) -> Result<(), Failed>
    ensures bytes { AppendsAll (K.written sink.old) (K.written sink.new) result bytes.now }
    ensures cause { HasCause (K.faults sink.old) (K.faults sink.new) result }
{
    let mut sent = 0;
    while sent < bytes.len() {
        match sink.write(&bytes[sent..]) {
            Ok(count) => sent += count,
            Err(failed) => return Err(failed),
        }
    }
    Ok(())
}
