//! The endings of all commands.

ghost use Rattle.std.specs.Prelude.{◌≡◌, ◌≤◌};
ghost use Rattle.worlds.specs.Endings.{refusal_status, status_of};

use git_object::ObjectId;
use octets::Octets;

/// An object outside that counts its faults.
#[derive(Clone, Copy, Debug, PartialEq, Eq)]
pub enum Part {
    Source,
    Sink,
    Keeper,
    Disk,
    Entropy,
    Clock,
    Peer,
}

/// Why a command is refused, in the order of its statuses: one variant for each line that the program can say there.
#[derive(Debug, PartialEq, Eq, Drop)]
pub enum Refusal {
    /// The words are outside the grammar.
    Words,
    /// The stream is refused, by the refusal of this number.
    Stream { number: u8 },
    /// What is kept under this id is not its object.
    Object { id: ObjectId },
    /// The stream of the repository is longer than a stream may be, or its log has as many entries as a log may.
    TooLarge,
    /// The disk holds something already.
    NotEmpty,
    /// The disk holds no key file.
    KeyFile,
    /// The policy is refused; the whole line that tells its fault, with its line feed.
    Policy { line: Octets },
    /// What the source gave is refused.
    Input,
    /// This object outside failed.
    Fault { part: Part },
    Memory,
    /// Each leaf of the key file is used.
    Exhausted,
    /// The desk took nothing: it gave no reply that can be read, or one that refuses, which was printed.
    Desk,
}

/// How a command ends.
#[derive(Debug, PartialEq, Eq, Drop)]
pub enum Ending {
    /// The answer was given.
    Done,
    /// The answer was given, and it says no.
    Differs,
    /// The log is broken, and the line that says so was printed in place of an answer.
    Broken,
    /// There is no answer.
    Refused { refusal: Refusal },
}

impl Refusal {
    /// The status with which the program then ends.
    pub fn status(&self) -> u8
        ensures status { result ≡ refusal_status self.now }
        ensures bound { result ≤ 7 }
    {
        match self {
            Refusal::Words => 2,
            Refusal::Stream { number: _ } => 3,
            Refusal::Object { id: _ } => 3,
            Refusal::TooLarge => 3,
            Refusal::NotEmpty => 3,
            Refusal::KeyFile => 3,
            Refusal::Policy { line: _ } => 3,
            Refusal::Input => 3,
            Refusal::Fault { part: _ } => 4,
            Refusal::Memory => 5,
            Refusal::Exhausted => 6,
            Refusal::Desk => 7,
        }
    }
}

impl Ending {
    /// The status with which the program ends: 0 where the answer was given, 1 where it says no, 3 where the log is
    /// broken, and that of the refusal where there is none.
    pub fn status(&self) -> u8
        ensures status { result ≡ status_of self.now }
        ensures bound { result ≤ 7 }
    {
        match self {
            Ending::Done => 0,
            Ending::Differs => 1,
            Ending::Broken => 3,
            Ending::Refused { refusal } => refusal.status(),
        }
    }
}
