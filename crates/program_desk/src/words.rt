//! What `serve` asks for.

ghost use Rattle.std.specs.Prelude.{◌≡◌, map, string_bytes, IfOk, IfErr, IfSome};
ghost use Rattle.command_words.specs.FirstWords.{IsWithinLimits};
ghost use Rattle.worlds.specs.declared.ending.Refusal.TheVariants as refusal;
ghost use Rattle.program_desk.specs.Numbers.{numbers_of, AreOfWords, AreWithin};

use command_words::{Command, WordsFault, read_command};
use std::alloc::Global;
use worlds::Refusal;

/// What a `serve` command asks for: the port, how many workers a desk has, how many connections each of them serves,
/// and whether the desk is a gate.
#[derive(Clone, Copy, Debug)]
pub struct ServeWords {
    pub port: u16,
    pub workers: u32,
    pub connections: u32,
    pub gate: bool,
}

// What this command asks for; None of another one than `serve`.
fn numbers_of(command: Command) -> Option<ServeWords>
    ensures found { result ≡ numbers_of command }
    ensures within { IsWithinLimits command → IfSome result AreWithin }
{
    let Command::Serve {
        port,
        workers,
        connections,
        gate,
    } = command
    else {
        return None;
    };
    Some(ServeWords {
        port,
        workers,
        connections,
        gate,
    })
}

/// What the `serve` command that these words ask for has, each number within its limits; None where they ask for
/// another command or for none. `Memory` alone is refused.
pub fn serve_words(alloc: Global, words: &[String]) -> Result<Option<ServeWords>, Refusal>
    ensures found { IfOk result (AreOfWords (map string_bytes words.now)) }
    ensures within { IfOk result (λ found. IfSome found AreWithin) }
    ensures refused { IfErr result (λ why. why ≡ refusal.Memory) }
{
    match read_command(alloc, words) {
        Ok(command) => Ok(numbers_of(command)),
        Err(WordsFault::Outside) => Ok(None),
        Err(WordsFault::Memory) => Err(Refusal::Memory),
    }
}
