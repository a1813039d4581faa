//! Where bytes go.

ghost use Rattle.std.specs.Prelude.{◌≡◌, ◌≤◌, ◌<◌, ℕ, List, length, take, IfOk, OnOk, OnErr};
ghost use Rattle.std.specs.declared.option.Option.{Option};
ghost use Rattle.octets.specs.Causes.{HasCause, each};
ghost use Rattle.octets.specs.Content.{with_end, GainsPart};

use crate::Failed;

/// Where bytes go.
pub trait Sink {
    /// The bytes that were written, where the sink tells them.
    ghost contents: { Self → Option (List ℕ) };

    /// How many calls failed. It never falls, and stands still at 2^64 - 1.
    ghost faults: { Self → ℕ };

    /// Takes bytes from the front of a piece and answers how many: at least one of a piece that is not empty,
    /// 0 of an empty one. `Failed` takes none.
    fn write(&mut self, bytes: &[u8]) -> Result<usize, Failed>
        ensures bound { IfOk result (λ count. count ≤ length bytes.now) }
        ensures some { IfOk result (λ count. 0 < length bytes.now → 0 < count) }
        ensures bytes { IfOk result (λ count. contents self.new ≡ with_end (contents self.old) (take count bytes.now)) }
        ensures failed { OnErr result (contents self.new ≡ contents self.old) }
        ensures cause { HasCause each (faults self.old) (faults self.new) result };
}

/// Writes all bytes, in as many pieces as the sink takes. After `Failed`, which comes exactly where the sink
/// counted a fault, a front of them went out, and not all. It takes no memory.
pub fn write_all<K: Sink>(sink: &mut K, bytes: &[u8]) -> Result<(), Failed>
    ensures whole { OnOk result (K.contents sink.new ≡ with_end (K.contents sink.old) bytes.now) }
    ensures part { OnErr result (GainsPart (K.contents sink.old) (K.contents sink.new) bytes.now) }
    ensures cause { HasCause each (K.faults sink.old) (K.faults sink.new) result }
{
    let mut rest = bytes;
    'pieces: while !rest.is_empty() {
        let count = sink.write(rest)?;
        let (_, after) = rest.split_at(count);
        rest = after;
    }
    Ok(())
}
