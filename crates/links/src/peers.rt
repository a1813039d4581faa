//! A program that is asked.

ghost use Rattle.std.specs.Prelude.{◌≡◌, ◌≤◌, ◌<◌, ℕ, List, length, take, IfOk, IfSome, OnErr, OnOk};
ghost use Rattle.std.specs.declared.option.Option.{Option};
ghost use Rattle.octets.specs.Causes.{HasCause, each};
ghost use Rattle.octets.specs.Content.{with_end, with_front};
ghost use Rattle.edge_io.specs.Read.{IsAtEnd};

use edge_io::Failed;

/// A program at a port of this machine. Once it is connected to, bytes go to it and come from it.
pub trait Peer {
    /// The port of the last connection, where it is told.
    ghost connected: { Self → Option ℕ };

    /// The bytes that are left to read of it, where they are told.
    ghost left: { Self → Option (List ℕ) };

    /// The bytes that it was given, where they are told.
    ghost given: { Self → Option (List ℕ) };

    /// How many calls failed. It never falls, and stands still at 2^64 - 1.
    ghost faults: { Self → ℕ };

    /// Connects to the program at a port. After `Failed` there is no other connection than before.
    fn connect(&mut self, port: u16) -> Result<(), Failed>
        ensures port { OnOk result (IfSome (connected self.new) (λ at. at ≡ port)) }
        ensures failed { OnErr result (connected self.new ≡ connected self.old) }
        ensures unread { left self.new ≡ left self.old }
        ensures unwritten { given self.new ≡ given self.old }
        ensures cause { HasCause each (faults self.old) (faults self.new) result };

    /// Takes bytes from the front of a piece and answers how many: at least one of a piece that is not empty, 0 of an
    /// empty one. `Failed` takes none.
    fn write(&mut self, bytes: &[u8]) -> Result<usize, Failed>
        ensures bound { IfOk result (λ count. count ≤ length bytes.now) }
        ensures some { IfOk result (λ count. 0 < length bytes.now → 0 < count) }
        ensures bytes { IfOk result (λ count. given self.new ≡ with_end (given self.old) (take count bytes.now)) }
        ensures failed { OnErr result (given self.new ≡ given self.old) }
        ensures unread { left self.new ≡ left self.old }
        ensures port { connected self.new ≡ connected self.old }
        ensures cause { HasCause each (faults self.old) (faults self.new) result };

    /// Reads bytes into the front of `buf` and answers how many. 0 for a buffer that is not empty means the end of what
    /// comes. After `Failed` what is left is as before.
    fn read(&mut self, buf: &mut [u8]) -> Result<usize, Failed>
        ensures bound { IfOk result (λ count. count ≤ length buf.new) }
        ensures bytes { IfOk result (λ count. left self.old ≡ with_front (take count buf.new) (left self.new)) }
        ensures end { IfOk result (λ count. count ≡ 0 → 0 < length buf.new → IsAtEnd (left self.old)) }
        ensures failed { OnErr result (left self.new ≡ left self.old) }
        ensures unwritten { given self.new ≡ given self.old }
        ensures port { connected self.new ≡ connected self.old }
        ensures cause { HasCause each (faults self.old) (faults self.new) result };
}
