//! The records that rows are written in.
//!
//! ```text
//! row <name> LF                     begins a row: an empty store, no bytes, an empty key file
//! bytes <size> LF <bytes> LF        adds to what the source gives to each command of the row from here on
//! piece <name> <size> LF <bytes> LF keeps bytes under a name for all rows
//! take <name> LF                    adds the bytes that are kept under a name
//! times <count> <name> LF           adds them so many times
//! source <size> LF <bytes> LF       what the source gives to each command of the row from here on
//! key <size> LF <bytes> LF          what the key file holds for the next command of the row; what is signed over the
//!                                   row's store changes it for those after
//! room <object> <bytes> LF          the room of an object for the next command
//! failing <object> <call> .. LF     the calls of an object that fail in the next command
//! random <size> LF <bytes> LF       the random bytes for the next command
//! answer <size> LF <bytes> LF       what a peer answers to the next command
//! moments <moment> .. LF            what the clock gives to the next command
//! <way> <word> <word> .. LF         runs the command of these words in one of the ways
//! held LF                           tells what the key file holds
//! sent LF                           tells what the last command sent to a peer, and to which port
//! endless <size> LF                 exports a store without an end, of blobs of so many bytes
//! <question> ..                     tells what a call below the commands answers (`questions.rt`)
//! ```

use crate::conditions::Part;
use crate::questions::{Question, question_of};
use text_reader::{read_decimal, split_front, split_line, split_word, strip_front};

/// How a command is run.
#[derive(Clone, Copy, Drop)]
pub enum Way {
    /// Once, over the row's store.
    Once,
    /// Over an empty store for each proper front of the bytes.
    Fronts,
    /// With an object of which the first call fails, then with one of which the second does, and so on, until none
    /// fails: over an empty store where it is the source, and else over the row's store.
    Failing(Part),
}

/// Bytes under a name.
#[derive(Clone, Copy, Drop)]
pub struct Piece<'a> {
    pub name: &'a [u8],
    pub bytes: &'a [u8],
}

/// What is told of the objects for the next command. Numbers are not read yet.
#[derive(Clone, Copy, Drop)]
pub enum Condition<'a> {
    Room { part: Part, bytes: usize },
    Failing { part: Part, calls: &'a [u8] },
    Random { bytes: &'a [u8] },
    Moments { moments: &'a [u8] },
    Answer { bytes: &'a [u8] },
}

/// One of the records.
#[derive(Clone, Copy, Drop)]
pub enum Record<'a> {
    Row { name: &'a [u8] },
    Bytes { bytes: &'a [u8] },
    Source { bytes: &'a [u8] },
    Keep { piece: Piece<'a> },
    Take { count: u64, name: &'a [u8] },
    Key { key: &'a [u8] },
    Condition { condition: Condition<'a> },
    Run { way: Way, words: &'a [u8] },
    Held,
    Sent,
    Endless { size: usize },
    Ask { question: Question<'a> },
}

fn size_of(text: &[u8]) -> Option<usize> {
    usize::try_from(read_decimal(text)?).ok()
}

// So many bytes of the text as its size says, and what stands after them and their line feed.
fn sized<'a>(size: &[u8], text: &'a [u8]) -> Option<(&'a [u8], &'a [u8])> {
    let (bytes, after) = split_front(text, size_of(size)?)?;
    Some((bytes, strip_front(after, b"\n")?))
}

fn part_of(word: &[u8]) -> Option<Part> {
    match word {
        b"source" => Some(Part::Source),
        b"sink" => Some(Part::Sink),
        b"refusals" => Some(Part::Refusals),
        b"store" => Some(Part::Store),
        b"kept" => Some(Part::Kept),
        b"disk" => Some(Part::Disk),
        b"random" => Some(Part::Random),
        b"clock" => Some(Part::Clock),
        b"peer" => Some(Part::Peer),
        _ => None,
    }
}

fn way_of(word: &[u8]) -> Option<Way> {
    match word {
        b"run" => Some(Way::Once),
        b"fronts" => Some(Way::Fronts),
        _ => {
            let part = part_of(strip_front(word, b"failing-")?)?;
            Some(Way::Failing(part))
        }
    }
}

// The condition that a word and the rest of its line begin, and what stands after it.
fn condition_of<'a>(
    word: &[u8],
    rest: &'a [u8],
    after: &'a [u8],
) -> Option<(Condition<'a>, &'a [u8])> {
    match word {
        b"room" => {
            let (part, bytes) = split_word(rest)?;
            let (part, bytes) = (part_of(part)?, size_of(bytes)?);
            Some((Condition::Room { part, bytes }, after))
        }
        b"failing" => {
            let (part, calls) = split_word(rest)?;
            let part = part_of(part)?;
            Some((Condition::Failing { part, calls }, after))
        }
        b"random" => {
            let (bytes, after) = sized(rest, after)?;
            Some((Condition::Random { bytes }, after))
        }
        b"moments" => Some((Condition::Moments { moments: rest }, after)),
        b"answer" => {
            let (bytes, after) = sized(rest, after)?;
            Some((Condition::Answer { bytes }, after))
        }
        _ => None,
    }
}

// The record of a row's bytes, store and key file that they begin, and what stands after it.
fn setting_of<'a>(word: &[u8], rest: &'a [u8], after: &'a [u8]) -> Option<(Record<'a>, &'a [u8])> {
    match word {
        b"row" => Some((Record::Row { name: rest }, after)),
        b"bytes" => {
            let (bytes, after) = sized(rest, after)?;
            Some((Record::Bytes { bytes }, after))
        }
        b"source" => {
            let (bytes, after) = sized(rest, after)?;
            Some((Record::Source { bytes }, after))
        }
        b"piece" => {
            let (name, size) = split_word(rest)?;
            let (bytes, after) = sized(size, after)?;
            let piece = Piece { name, bytes };
            Some((Record::Keep { piece }, after))
        }
        b"take" => Some((
            Record::Take {
                count: 1,
                name: rest,
            },
            after,
        )),
        b"times" => {
            let (count, name) = split_word(rest)?;
            let count = read_decimal(count)?;
            Some((Record::Take { count, name }, after))
        }
        b"key" => {
            let (key, after) = sized(rest, after)?;
            Some((Record::Key { key }, after))
        }
        _ => None,
    }
}

// The record of a run that a word and the rest of its line are.
fn run_of<'a>(word: &[u8], rest: &'a [u8]) -> Option<Record<'a>> {
    match word {
        b"held" => Some(Record::Held),
        b"sent" => Some(Record::Sent),
        b"endless" => Some(Record::Endless {
            size: size_of(rest)?,
        }),
        _ => Some(Record::Run {
            way: way_of(word)?,
            words: rest,
        }),
    }
}

/// The first record and what stands after it, or None where the text begins with none.
pub fn first_record(text: &[u8]) -> Option<(Record<'_>, &[u8])> {
    let (line, after) = split_line(text)?;
    let (word, rest) = match split_word(line) {
        Some(parts) => parts,
        None => (line, b"".as_slice()),
    };
    if let Some(found) = setting_of(word, rest, after) {
        return Some(found);
    }
    if let Some((condition, after)) = condition_of(word, rest, after) {
        return Some((Record::Condition { condition }, after));
    }
    if let Some(question) = question_of(word, rest) {
        return Some((Record::Ask { question }, after));
    }
    match run_of(word, rest) {
        Some(record) => Some((record, after)),
        None => None,
    }
}
