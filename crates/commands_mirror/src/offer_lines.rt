//! The line of an offer that was answered.

ghost use Rattle.std.specs.Prelude.{◌≡◌, ◌++◌, ◌∷◌, [], codes, decimal, OnErr, OnOk};
ghost use Rattle.hex.specs.Hex.{encode_lower};
ghost use Rattle.octets.specs.Causes.{HasCause, each};
ghost use Rattle.octets.specs.Content.{GainsPart, with_end};
ghost use Rattle.commands_mirror.specs.Lines.{fork_line, ids_line, numbers_line, offer_line};

use edge_io::{Failed, Sink, write_all};
use git_object::ObjectId;
use itoa::Buffer;
use mirror::Offer;

// Prints two texts, one after the other.
fn put_both<K: Sink>(sink: &mut K, first: &[u8], second: &[u8]) -> Result<(), Failed>
    ensures whole { OnOk result (K.contents sink.new ≡ with_end (K.contents sink.old) (first.now ++ second.now)) }
    ensures part { OnErr result (GainsPart (K.contents sink.old) (K.contents sink.new) (first.now ++ second.now)) }
    ensures cause { HasCause each (K.faults sink.old) (K.faults sink.new) result }
{
    write_all(sink, first)?;
    write_all(sink, second)
}

// Prints three.
fn put_three<K: Sink>(sink: &mut K, first: &[u8], second: &[u8], third: &[u8]) -> Result<(), Failed>
    ensures whole { OnOk result (K.contents sink.new
        ≡ with_end (K.contents sink.old) (first.now ++ (second.now ++ third.now))) }
    ensures part { OnErr result (GainsPart (K.contents sink.old) (K.contents sink.new)
        (first.now ++ (second.now ++ third.now))) }
    ensures cause { HasCause each (K.faults sink.old) (K.faults sink.new) result }
{
    write_all(sink, first)?;
    put_both(sink, second, third)
}

// Prints a word, a number and what ends it.
fn print_number<K: Sink>(sink: &mut K, word: &[u8], number: u64, end: &[u8]) -> Result<(), Failed>
    ensures whole { OnOk result (K.contents sink.new
        ≡ with_end (K.contents sink.old) (word.now ++ (decimal number ++ end.now))) }
    ensures part { OnErr result (GainsPart (K.contents sink.old) (K.contents sink.new)
        (word.now ++ (decimal number ++ end.now))) }
    ensures cause { HasCause each (K.faults sink.old) (K.faults sink.new) result }
{
    let mut digits = Buffer::new();
    put_three(sink, word, digits.format(number).as_bytes(), end)
}

// Prints a number and a line feed.
fn print_last<K: Sink>(sink: &mut K, number: u64) -> Result<(), Failed>
    ensures whole { OnOk result (K.contents sink.new
        ≡ with_end (K.contents sink.old) (decimal number ++ codes "\n")) }
    ensures part { OnErr result (GainsPart (K.contents sink.old) (K.contents sink.new)
        (decimal number ++ codes "\n")) }
    ensures cause { HasCause each (K.faults sink.old) (K.faults sink.new) result }
{
    let mut digits = Buffer::new();
    put_both(sink, digits.format(number).as_bytes(), b"\n")
}

// Prints an id and what ends it.
fn print_id<K: Sink>(sink: &mut K, id: &ObjectId, end: &[u8]) -> Result<(), Failed>
    ensures whole { OnOk result (K.contents sink.new
        ≡ with_end (K.contents sink.old) (encode_lower id.now ++ end.now)) }
    ensures part { OnErr result (GainsPart (K.contents sink.old) (K.contents sink.new)
        (encode_lower id.now ++ end.now)) }
    ensures cause { HasCause each (K.faults sink.old) (K.faults sink.new) result }
{
    put_both(sink, &id.to_hex(), end)
}

// Prints a word and two numbers.
fn print_numbers<K: Sink>(sink: &mut K, word: &[u8], first: u64, second: u64) -> Result<(), Failed>
    ensures whole { OnOk result (K.contents sink.new
        ≡ with_end (K.contents sink.old) (numbers_line word.now first second)) }
    ensures part { OnErr result (GainsPart (K.contents sink.old) (K.contents sink.new)
        (numbers_line word.now first second)) }
    ensures cause { HasCause each (K.faults sink.old) (K.faults sink.new) result }
{
    print_number(sink, word, first, b" ")?;
    print_last(sink, second)
}

// Prints the ids of two entries.
fn print_ids<K: Sink>(sink: &mut K, kept: &ObjectId, offered: &ObjectId) -> Result<(), Failed>
    ensures whole { OnOk result (K.contents sink.new
        ≡ with_end (K.contents sink.old) (ids_line kept.now offered.now)) }
    ensures part { OnErr result (GainsPart (K.contents sink.old) (K.contents sink.new)
        (ids_line kept.now offered.now)) }
    ensures cause { HasCause each (K.faults sink.old) (K.faults sink.new) result }
{
    print_id(sink, kept, b" ")?;
    print_id(sink, offered, b"\n")
}

// Prints where two logs part.
fn print_fork<K: Sink>(
    sink: &mut K,
    number: u64,
    kept: &ObjectId,
    offered: &ObjectId,
) -> Result<(), Failed>
    ensures whole { OnOk result (K.contents sink.new
        ≡ with_end (K.contents sink.old) (fork_line number kept.now offered.now)) }
    ensures part { OnErr result (GainsPart (K.contents sink.old) (K.contents sink.new)
        (fork_line number kept.now offered.now)) }
    ensures cause { HasCause each (K.faults sink.old) (K.faults sink.new) result }
{
    print_number(sink, b"forked ", number, b" ")?;
    print_ids(sink, kept, offered)
}

/// Prints the line that tells how an offer was answered. After `Failed`, which comes exactly where the sink counted a
/// fault, a front of it went out, and not all. It takes no memory.
pub fn print_offer<K: Sink>(sink: &mut K, offer: &Offer) -> Result<(), Failed>
    ensures whole { OnOk result (K.contents sink.new ≡ with_end (K.contents sink.old) (offer_line offer.now)) }
    ensures part { OnErr result (GainsPart (K.contents sink.old) (K.contents sink.new) (offer_line offer.now)) }
    ensures cause { HasCause each (K.faults sink.old) (K.faults sink.new) result }
{
    match offer {
        Offer::Taken { from, to } => print_numbers(sink, b"taken ", *from, *to),
        Offer::Same { count } => print_number(sink, b"same ", *count, b"\n"),
        Offer::Behind { kept, offered } => print_numbers(sink, b"behind ", *kept, *offered),
        Offer::Forked {
            number,
            kept,
            offered,
        } => print_fork(sink, *number, kept, offered),
    }
}
