//! What a command needs of the real objects.

use command_words::{Command, Height, WordsFault, read_command};
use std::alloc::Global;
use worlds::Refusal;

/// What a command needs of the real objects.
#[derive(Clone, Copy, Debug)]
pub(crate) struct Needs {
    /// It may change the store.
    pub(crate) change: bool,
    /// It uses the key file.
    pub(crate) key: bool,
    /// It makes a key that may take more than two seconds to make.
    pub(crate) slow: bool,
}

/// What the command of the words needs. Words outside the grammar need nothing, and are refused.
pub(crate) fn needs_of(alloc: Global, command: &[String]) -> Result<Needs, Refusal> {
    let (change, key, slow) = match read_command(alloc, command) {
        Ok(Command::Import) => (true, false, false),
        Ok(
            Command::VerifyRef {
                name: _,
                root: _,
                stdin,
            },
        ) => (stdin, false, false),
        Ok(Command::VerifyGlobal { name: _, root: _ }) => (false, false, false),
        Ok(Command::Export) => (false, false, false),
        Ok(Command::Log) => (false, false, false),
        Ok(Command::Record { name: _ }) => (true, true, false),
        Ok(Command::Seal { add: _ }) => (false, true, false),
        Ok(Command::Snapshot { name: _ }) => (true, false, false),
        Ok(Command::PolicyApply) => (true, true, false),
        Ok(Command::Explain { space: _, text: _ }) => (false, false, false),
        Ok(
            Command::Annotate {
                skip: _,
                ids: _,
                message: _,
            },
        ) => (true, true, false),
        Ok(Command::Approve { name: _, target: _ }) => (true, true, false),
        Ok(Command::Demo { count: _ }) => (true, false, false),
        Ok(Command::Mirror) => (true, false, false),
        Ok(
            Command::EvidenceMake {
                public: _,
                left: _,
                right: _,
            },
        ) => (false, false, false),
        Ok(Command::EvidenceCheck) => (false, false, false),
        Ok(
            Command::Serve {
                port: _,
                workers: _,
                connections: _,
                gate: _,
            },
        ) => (true, false, false),
        Ok(Command::Push { port: _, number: _ }) => (false, false, false),
        Ok(
            Command::KeyGen {
                height,
                width: _,
                bottom: _,
            },
        ) => (false, true, height == Height::H15),
        Err(WordsFault::Outside) => return Err(Refusal::Words),
        Err(WordsFault::Memory) => return Err(Refusal::Memory),
    };
    Ok(Needs { change, key, slow })
}
