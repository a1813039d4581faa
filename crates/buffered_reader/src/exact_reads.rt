//! Reading so many bytes into a buffer of their own.

ghost use Rattle.std.specs.Prelude.{◌≡◌, ◌≢◌, ◌≤◌, ◌<◌, ◌+◌, ◌⊎◌, [], length, false, IfOk, IfSome, IsErrOf, IsTrue};
ghost use Rattle.std.specs.Prelude.{OnOk, OnErr};
ghost use Rattle.octets.specs.Causes.{HasCause, each};
ghost use Rattle.buffered_reader.specs.Faults.{exact_failed};
ghost use Rattle.octets.specs.Content.{with_front};
ghost use Rattle.edge_io.specs.Read.{IsAtEnd};
ghost use Rattle.buffered_reader.specs.Stops.{EndsIn, IsShorter, StopsAfter, TakesOne};

use crate::BufferedReader;
use edge_io::{Failed, Source};
use octets::{Memory, Octets};
use std::alloc::Global;

/// Why so many bytes were not read.
#[derive(Debug, Clone, Copy, PartialEq, Eq, Drop)]
pub enum ExactFault {
    /// The input ends before.
    Cut,
    /// The source failed.
    Failed,
    Memory,
}

impl From<Failed> for ExactFault {
    ghost use Rattle.buffered_reader.specs.declared.exact_reads.ExactFault.TheVariants as fault;

    ghost from_gives = { λ _ e. e ≡ fault.Failed };

    fn from(_error: Failed) -> ExactFault {
        ExactFault::Failed
    }
}

impl BufferedReader {
    ghost use Rattle.buffered_reader.specs.Ahead.{ahead, past};

    // Fills `out`, or stops where the input ends or the source fails.
    fn fill<S: Source>(&mut self, source: &mut S, out: &mut [u8]) -> Result<(), ExactFault>
        ensures ahead { OnOk result (ahead self.old (S.left source.old) ≡ with_front out.new
            (ahead self.new (S.left source.new))) }
        ensures taken { OnOk result (self.new.taken ≡ self.old.taken + length out.new) }
        ensures cut { IsErrOf result ExactFault.Cut
            → IfSome (ahead self.old (S.left source.old)) (EndsIn (IsShorter (length out.new)) self.old self.new) }
        ensures failed { IsErrOf result ExactFault.Failed → StopsAfter (IsShorter (length out.new)) self.old self.new
            (ahead self.old (S.left source.old)) (ahead self.new (S.left source.new)) }
        ensures no_memory { IsErrOf result ExactFault.Memory → ⊥ }
        ensures past { past self.new (S.left source.new) ≡ past self.old (S.left source.old) }
        ensures limit { self.new.limit ≡ self.old.limit }
        ensures cause { HasCause exact_failed (S.faults source.old) (S.faults source.new) result }
    {
        let mut at = 0;
        'pieces: while at < out.len() {
            let (_, rest) = out.split_at_mut(at);
            let count = self.read(source, rest)?;
            if count == 0 {
                return Err(ExactFault::Cut);
            }
            at += count;
        }
        Ok(())
    }

    /// Takes so many bytes, which go into a buffer of their own. `Cut` comes exactly where fewer are ahead, and
    /// then all of them were taken. `Failed` comes exactly where the source counted a fault, and then fewer were
    /// taken, and nothing is buffered. Where memory is wanting, nothing was taken.
    pub fn exact<S: Source>(
        &mut self,
        alloc: Global,
        source: &mut S,
        count: usize,
    ) -> Result<Octets, ExactFault>
        ensures len { IfOk result (λ bytes. length bytes ≡ count) }
        ensures ahead { IfOk result (λ bytes. ahead self.old (S.left source.old) ≡ with_front bytes
            (ahead self.new (S.left source.new))) }
        ensures taken { OnOk result (self.new.taken ≡ self.old.taken + count) }
        ensures cut { IsErrOf result ExactFault.Cut
            → IfSome (ahead self.old (S.left source.old)) (EndsIn (IsShorter count) self.old self.new) }
        ensures failed { IsErrOf result ExactFault.Failed
            → StopsAfter (IsShorter count) self.old self.new (ahead self.old (S.left source.old))
            (ahead self.new (S.left source.new)) }
        ensures memory { IsErrOf result ExactFault.Memory → (self.new ≡ self.old)
            × (S.left source.new ≡ S.left source.old) }
        ensures past { past self.new (S.left source.new) ≡ past self.old (S.left source.old) }
        ensures limit { self.new.limit ≡ self.old.limit }
        ensures cause { HasCause exact_failed (S.faults source.old) (S.faults source.new) result }
    {
        let Ok(mut bytes) = vec![in alloc; 0u8; count] else {
            return Err(ExactFault::Memory);
        };
        match self.fill(source, bytes.as_mut_slice()) {
            Ok(()) => Ok(Octets::from_vec(bytes)),
            Err(fault) => Err(fault),
        }
    }

    /// Whether the input goes on past the limit. It is for where nothing is ahead any more: then the source is
    /// at its end where the answer is no. It takes one byte off the source where the answer is yes, and else none.
    pub fn passes_limit<S: Source>(&mut self, source: &mut S) -> Result<bool, Failed>
        ensures more { IfOk result (λ more. IsTrue more → (self.old.taken ≡ self.old.limit)
            × IfSome (past self.old (S.left source.old)) (λ rest. rest ≢ [])) }
        ensures one { IfOk result (λ more. IsTrue more
            → TakesOne (past self.old (S.left source.old)) (S.left source.new)) }
        ensures none { IfOk result (λ more. more ≡ false → (self.old.taken < self.old.limit)
            ⊎ IfSome (past self.old (S.left source.old)) (λ rest. rest ≡ [])) }
        ensures end { IfOk result (λ more. more ≡ false → self.old.buffered ≡ []
            → IfSome (ahead self.old (S.left source.old)) (λ rest. rest ≡ []) → IsAtEnd (S.left source.new)) }
        ensures unread { IfOk result (λ more. more ≡ false → S.left source.new ≡ S.left source.old) }
        ensures same { self.new ≡ self.old }
        ensures limited { self.old.taken ≤ self.old.limit }
        ensures failed { OnErr result (S.left source.new ≡ past self.old (S.left source.old)) }
        ensures failed_full { OnErr result (self.old.taken ≡ self.old.limit) }
        ensures cause { HasCause each (S.faults source.old) (S.faults source.new) result }
    {
        if self.taken() < self.limit() {
            return Ok(false);
        }
        let mut byte = [0; 1];
        let count = source.read(&mut byte)?;
        if count == 0 {
            return Ok(false);
        }
        Ok(true)
    }
}
