//! Reading a line.

ghost use Rattle.std.specs.Prelude.{◌≡◌, ◌≤◌, ◌+◌, ◌++◌, ◌∷◌, [], length, IfOk, IfSome, IsErrOf, OnOk};
ghost use Rattle.octets.specs.Causes.{HasCause};
ghost use Rattle.buffered_reader.specs.Faults.{line_failed};
ghost use Rattle.octets.specs.Content.{with_front};
ghost use Rattle.buffered_reader.specs.Lines.{IsLine, IsLong};
ghost use Rattle.buffered_reader.specs.Stops.{EndsIn, StopsAfter, TakesLong};

use crate::{BufferedReader, Line};
use edge_io::{Failed, Source};

/// Why no line was read.
#[derive(Debug, Clone, Copy, PartialEq, Eq, Drop)]
pub enum LineFault {
    /// 400 bytes stand there without a line feed.
    Long,
    /// The input ends before a line feed.
    Cut,
    /// The source failed.
    Failed,
}

impl From<Failed> for LineFault {
    ghost use Rattle.buffered_reader.specs.declared.line_reads.LineFault.TheVariants as fault;

    ghost from_gives = { λ _ e. e ≡ fault.Failed };

    fn from(_error: Failed) -> LineFault {
        LineFault::Failed
    }
}

impl BufferedReader {
    ghost use Rattle.buffered_reader.specs.Ahead.{ahead, past};

    /// Takes a line and its line feed. `Long` comes exactly where 400 bytes stand ahead without a line feed, and then
    /// these were taken; `Cut` exactly where fewer do, and then all of them were taken. `Failed` comes exactly where
    /// the source counted a fault, and then the front of a line was taken, and nothing is buffered. It takes no memory.
    pub fn line<S: Source>(&mut self, source: &mut S) -> Result<Line, LineFault>
        ensures is_line { IfOk result IsLine }
        ensures ahead { IfOk result (λ line. ahead self.old (S.left source.old) ≡ with_front (line ++ 10 ∷ [])
            (ahead self.new (S.left source.new))) }
        ensures taken { IfOk result (λ line. self.new.taken ≡ self.old.taken + length line + 1) }
        ensures limited { OnOk result (self.new.taken ≤ self.new.limit) }
        ensures long { IsErrOf result LineFault.Long → IfSome (ahead self.old (S.left source.old)) IsLong }
        ensures long_taken { IsErrOf result LineFault.Long
            → TakesLong self.old self.new (ahead self.old (S.left source.old)) (ahead self.new (S.left source.new)) }
        ensures cut { IsErrOf result LineFault.Cut
            → IfSome (ahead self.old (S.left source.old)) (EndsIn IsLine self.old self.new) }
        ensures failed { IsErrOf result LineFault.Failed
            → StopsAfter IsLine self.old self.new (ahead self.old (S.left source.old))
            (ahead self.new (S.left source.new)) }
        ensures past { past self.new (S.left source.new) ≡ past self.old (S.left source.old) }
        ensures limit { self.new.limit ≡ self.old.limit }
        ensures cause { HasCause line_failed (S.faults source.old) (S.faults source.new) result }
    {
        let mut line = Line::new();
        'bytes: loop {
            let Some(byte) = self.byte(source)? else {
                return Err(LineFault::Cut);
            };
            if byte == b'\n' {
                return Ok(line);
            }
            if line.len() == 399 {
                return Err(LineFault::Long);
            }
            line.push(byte);
        }
    }
}
