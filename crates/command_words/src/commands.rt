//! The commands.

use git_object::{Ids, KeyId, ObjectId, RefName};
use octets::{Items, Octets};
use ref_patterns::Space;

/// How many levels the tree of a key has: a key of `H5` signs 32 times, one of `H10` 1,024 and one of `H15` 32,768
/// times.
#[derive(Clone, Copy, Debug, PartialEq, Eq, Drop)]
pub enum Height {
    H5,
    H10,
    H15,
}

/// How many bits of a hash each chain of a signature signs: the more, the shorter the signature and the slower.
#[derive(Clone, Copy, Debug, PartialEq, Eq, Drop)]
pub enum Width {
    W1,
    W2,
    W4,
    W8,
}

/// What the words of a command ask for.
#[derive(Drop)]
pub enum Command {
    /// The verdict on a reference; with `root` under the first policy whose root role has the keys of these ids, from 1
    /// to 64 in the order of the words, a repeated one counting once; with `stdin` the repository is the one whose
    /// stream the source gives.
    VerifyRef {
        name: RefName,
        root: Option<Items<KeyId>>,
        stdin: bool,
    },
    /// The verdict on a reference other than the policy's by the global rules of the policies, with `root` as for
    /// `VerifyRef`.
    VerifyGlobal {
        name: RefName,
        root: Option<Items<KeyId>>,
    },
    /// The stream of the repository that the store holds.
    Export,
    /// To take the source's stream into the store.
    Import,
    /// To make a key on the key file, with `bottom` one of two levels.
    KeyGen {
        height: Height,
        width: Width,
        bottom: Option<Height>,
    },
    /// The entries of the log.
    Log,
    /// To record in the log where a reference stands.
    Record {
        name: RefName,
    },
    /// To sign the source's payload, or with `add` the payload of the source's envelope.
    Seal {
        add: bool,
    },
    /// To put the source's files on a reference as a commit.
    Snapshot {
        name: RefName,
    },
    /// To record the policy's reference where its policy succeeds.
    PolicyApply,
    /// The rules that the policy has for a name in a space; the name may be empty.
    Explain {
        space: Space,
        text: Octets,
    },
    /// To note something of entries of the log, from 1 to 256 by their ids in this order, or to skip them, with a
    /// message of at most 65,536 bytes.
    Annotate {
        skip: bool,
        ids: Ids,
        message: Octets,
    },
    /// To sign that a reference may move from where the log has it to the tree of a target.
    Approve {
        name: RefName,
        target: ObjectId,
    },
    /// To make the repository of a demonstration of so many changes, from 1 to 500, and to judge it.
    Demo {
        count: u32,
    },
    /// To offer the source's repository to the store.
    Mirror,
    /// The dossier of a key of 56 bytes or of 60 and of the bodies of two objects of the store.
    EvidenceMake {
        public: Octets,
        left: ObjectId,
        right: ObjectId,
    },
    /// What the source's dossier shows.
    EvidenceCheck,
    /// To open a desk over the store on this port of the machine, from 1 to 65,535, with this many workers, from 1 to
    /// 64, each of which serves this many connections, from 1 to 1,000,000; with a gate one that denies a push whose
    /// entry has a fault.
    Serve {
        port: u16,
        workers: u32,
        connections: u32,
        gate: bool,
    },
    /// To send the entry of this number, from 1 to 1,000,000, to the desk on this port of the machine, from 1 to
    /// 65,535.
    Push {
        port: u16,
        number: u32,
    },
}

/// The first word of a command.
#[derive(Clone, Copy, Debug, PartialEq, Eq, Drop)]
pub enum CommandName {
    VerifyRef,
    VerifyGlobal,
    Export,
    Import,
    KeyGen,
    Log,
    Record,
    Seal,
    Snapshot,
    PolicyApply,
    Explain,
    Annotate,
    Approve,
    Demo,
    Mirror,
    EvidenceMake,
    EvidenceCheck,
    Serve,
    Push,
}
