//! The body of a push, read from a source.

ghost use Rattle.std.specs.Prelude.{◌≡◌, ◌≤◌, ◌<◌, length, take, IfOk, IsErrOf, OnErr, OnOk};
ghost use Rattle.octets.specs.Causes.{HasCause, each};
ghost use Rattle.octets.specs.Content.{with_front};
ghost use Rattle.edge_io.specs.Read.{IsAtEnd};
ghost use Rattle.desk_messages.specs.Bodies.{HasBody, IsCut, body_failed};
ghost use Rattle.desk_messages.specs.Reading.{HasFront};

use edge_io::{Failed, Source};
use octets::Octets;
use std::alloc::Global;

/// Why a body was not read.
#[derive(Clone, Copy, Drop)]
pub(crate) enum BodyFault {
    /// The input ended inside it.
    Cut,
    Failed,
    Memory,
}

impl From<Failed> for BodyFault {
    ghost use Rattle.desk_messages.specs.declared.bodies.BodyFault.TheVariants as fault;

    ghost from_gives = { λ _ e. e ≡ fault.Failed };

    fn from(_error: Failed) -> BodyFault {
        BodyFault::Failed
    }
}

// Fills a buffer as far as the input goes, and answers how many bytes came.
fn fill<S: Source>(source: &mut S, out: &mut [u8]) -> Result<usize, Failed>
    ensures within { IfOk result (λ len. len ≤ length out.new) }
    ensures read { IfOk result (λ len. S.left source.old ≡ with_front (take len out.new) (S.left source.new)) }
    ensures end { IfOk result (λ len. len < length out.new → IsAtEnd (S.left source.new)) }
    ensures failed { OnErr result (HasFront (S.left source.old) (S.left source.new)) }
    ensures cause { HasCause each (S.faults source.old) (S.faults source.new) result }
{
    let mut len = 0;
    'pieces: while len < out.len() {
        let (_, space) = out.split_at_mut(len);
        let count = source.read(space)?;
        if count == 0 {
            return Ok(len);
        }
        len += count;
    }
    Ok(len)
}

// Reads the rest of a body whose first bytes were read with the head.
fn read_rest<S: Source>(source: &mut S, begun: &[u8], body: &mut [u8]) -> Result<(), BodyFault>
    requires { length begun.now ≤ length body.old }
    ensures body { OnOk result (HasBody begun.now (length body.new) (S.left source.old) (S.left source.new) body.new) }
    ensures cut { IsErrOf result BodyFault.Cut
        → IsCut begun.now (length body.new) (S.left source.old) (S.left source.new) }
    ensures front { OnErr result (HasFront (S.left source.old) (S.left source.new)) }
    ensures no_memory { IsErrOf result BodyFault.Memory → ⊥ }
    ensures cause { HasCause body_failed (S.faults source.old) (S.faults source.new) result }
{
    let (front, rest) = body.split_at_mut(begun.len());
    front.copy_from_slice(begun);
    let len = fill(source, rest)?;
    if len < rest.len() {
        return Err(BodyFault::Cut);
    }
    Ok(())
}

/// Reads a body of this length whose first bytes, or more, were read with the head. Memory for all of it is taken once,
/// before a byte of it is read. `Cut` comes exactly where the input ends inside it.
pub(crate) fn read_body<S: Source>(
    alloc: Global,
    source: &mut S,
    begun: &[u8],
    len: usize,
) -> Result<Octets, BodyFault>
    ensures body { IfOk result (HasBody begun.now len (S.left source.old) (S.left source.new)) }
    ensures cut { IsErrOf result BodyFault.Cut → IsCut begun.now len (S.left source.old) (S.left source.new) }
    ensures front { OnErr result (HasFront (S.left source.old) (S.left source.new)) }
    ensures cause { HasCause body_failed (S.faults source.old) (S.faults source.new) result }
{
    if len <= begun.len() {
        return match Octets::from_slice(alloc, &begun[..len]) {
            Ok(body) => Ok(body),
            Err(_) => Err(BodyFault::Memory),
        };
    }
    let Ok(mut body) = vec![in alloc; 0u8; len] else {
        return Err(BodyFault::Memory);
    };
    match read_rest(source, begun, body.as_mut_slice()) {
        Ok(()) => Ok(Octets::from_vec(body)),
        Err(fault) => Err(fault),
    }
}
