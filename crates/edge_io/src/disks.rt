//! A disk that holds one file, and what a crash may leave of it.

ghost use Rattle.std.specs.Prelude.{◌≡◌, ◌≤◌, ◌+◌, ℕ, List, length, take, drop, IfOk, OnOk};
ghost use Rattle.std.specs.declared.option.Option.{Option};
ghost use Rattle.std.specs.declared.option.Option.TheVariants.{Some};
ghost use Rattle.octets.specs.Causes.{HasCause, each};
ghost use Rattle.octets.specs.Content.{Stays, Told};
ghost use Rattle.edge_io.specs.Disk.{Follows, IsKept, Only, Torn, Written};
ghost use Rattle.edge_io.specs.Moments.{Elapses};

use crate::Failed;

/// A disk with one file. Between two syncs each written range and the part past the old end may hold any bytes after
/// a crash, and the length may be any from the old to the new; bytes outside stay. After a sync that succeeds a crash
/// leaves what a read gives.
pub trait Disk {
    /// The bytes that a read gives, where the disk tells them. Telling may end, and it never begins.
    ghost seen: { Self → Option (List ℕ) };

    /// What a crash at this moment may leave. A disk that tells nothing has none here.
    ghost may_leave: { Self → List ℕ → Type 0 };

    /// The moment, as a number that does not fall.
    ghost moment: { Self → ℕ };

    /// What a crash at some moment from that one on might have left.
    ghost left_since: { Self → ℕ → List ℕ → Type 0 };

    /// How many calls failed. It never falls, and stands still at 2^64 - 1.
    ghost faults: { Self → ℕ };

    /// The length of the file in bytes.
    fn len(&mut self) -> Result<u64, Failed>
        ensures answer { IfOk result (λ len. (file : List ℕ) → seen self.new ≡ Some file → len ≡ length file) }
        ensures kept { IsKept (seen self.old) (seen self.new) (may_leave self.old) (may_leave self.new) }
        ensures time { Elapses (moment self.old) (moment self.new) (left_since self.old) (left_since self.new)
            (may_leave self.new) }
        ensures cause { HasCause each (faults self.old) (faults self.new) result };

    /// The bytes from an offset on, as many as the buffer takes, all of them within the file.
    fn read(&mut self, at: u64, out: &mut [u8]) -> Result<(), Failed>
        requires { (file : List ℕ) → seen self.old ≡ Some file → at + length out.old ≤ length file }
        ensures bytes { OnOk result ((file : List ℕ) → seen self.new ≡ Some file
            → out.new ≡ take (length out.old) (drop at file)) }
        ensures kept { IsKept (seen self.old) (seen self.new) (may_leave self.old) (may_leave self.new) }
        ensures time { Elapses (moment self.old) (moment self.new) (left_since self.old) (left_since self.new)
            (may_leave self.new) }
        ensures cause { HasCause each (faults self.old) (faults self.new) result };

    /// Writes over what is there, and past the end. Until a sync a crash may leave any bytes in the range; after
    /// `Failed` a read may give any there too.
    fn write_at(&mut self, at: u64, bytes: &[u8]) -> Result<(), Failed>
        requires { (file : List ℕ) → seen self.old ≡ Some file → at ≤ length file }
        ensures written { OnOk result (Told (Written at bytes.now) (seen self.old) (seen self.new)) }
        ensures seen { Told (Torn at (length bytes.now)) (seen self.old) (seen self.new) }
        ensures crash { Follows (Torn at (length bytes.now)) (may_leave self.old) (may_leave self.new) }
        ensures time { Elapses (moment self.old) (moment self.new) (left_since self.old) (left_since self.new)
            (may_leave self.new) }
        ensures cause { HasCause each (faults self.old) (faults self.new) result };

    /// After it a crash leaves what a read gives.
    fn sync(&mut self) -> Result<(), Failed>
        ensures durable { OnOk result ((file : List ℕ) → seen self.new ≡ Some file → Only file (may_leave self.new)) }
        ensures kept { IsKept (seen self.old) (seen self.new) (may_leave self.old) (may_leave self.new) }
        ensures time { Elapses (moment self.old) (moment self.new) (left_since self.old) (left_since self.new)
            (may_leave self.new) }
        ensures cause { HasCause each (faults self.old) (faults self.new) result };

    /// This moment is one of those since an earlier one.
    ghost counts_now: { (file : Self) (t : ℕ) (c : List ℕ) → t ≤ moment file → may_leave file c → left_since file t c };

    /// Since this moment there is no other.
    ghost only_now: { (file : Self) (c : List ℕ) → left_since file (moment file) c → may_leave file c };

    /// What a read gives is one of the outcomes of a crash.
    ghost seen_may_stay: { (file : Self) (bytes : List ℕ) → seen file ≡ Some bytes → may_leave file bytes };

    /// A disk that has outcomes tells what a read gives.
    ghost told: { (file : Self) (c : List ℕ) → may_leave file c → (bytes : List ℕ) × (seen file ≡ Some bytes) };
}
