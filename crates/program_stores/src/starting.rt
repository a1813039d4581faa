//! The words of a call, and the end of one that is refused.

ghost use Rattle.std.specs.Prelude.{◌≡◌, ◌⊎◌, IfErr};
ghost use Rattle.worlds.specs.Endings.{refusal_status};
ghost use Rattle.worlds.specs.declared.ending.Refusal.TheVariants as refusal;

use edge_io::{StdSink, write_all};
use std::alloc::Global;
use std::env;
use std::io::{ErrorKind, Write};
use std::rt::Env;
use worlds::Refusal;

/// The words after the program's name. A word that is not UTF-8 is refused like words outside the grammar.
pub fn words_of<R: Env + AllocGlobal>(rt: &R) -> Result<Vec<String>, Refusal>
    ensures { IfErr result (λ why. (why ≡ refusal.Words) ⊎ (why ≡ refusal.Memory)) }
{
    let args = match env::args(rt) {
        Ok(args) => args,
        Err(error) => {
            return Err(match error.kind() {
                ErrorKind::OutOfMemory => Refusal::Memory,
                _ => Refusal::Words,
            });
        }
    };
    let mut words = Vec::new(rt.alloc());
    for word in args.skip(1) {
        if words.push(word).is_err() {
            return Err(Refusal::Memory);
        }
    }
    Ok(words)
}

/// Says a refusal, where its line can be written, and answers its status.
pub fn refuse<W: Write + Drop>(faults_out: W, refusal: &Refusal) -> u8
    ensures { result ≡ refusal_status refusal.now }
{
    let mut sink = StdSink::new(faults_out);
    let _ = write_all(&mut sink, refusal.line().as_slice());
    refusal.status()
}

/// Says that a database has another schema, by its number, where the line can be written, and answers the status of a
/// refused input, or that of want of memory.
pub fn refuse_schema<W: Write + Drop>(alloc: Global, faults_out: W, found: i64) -> u8
    ensures { (result ≡ 3) ⊎ (result ≡ refusal_status refusal.Memory) }
{
    match format!(in alloc; "schema {found}\n") {
        Ok(line) => {
            let mut sink = StdSink::new(faults_out);
            let _ = write_all(&mut sink, line.as_bytes());
            3
        }
        Err(_) => refuse(faults_out, &Refusal::Memory),
    }
}
