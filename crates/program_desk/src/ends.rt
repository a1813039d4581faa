//! How a desk's end is said.

ghost use Rattle.std.specs.Prelude.{◌≡◌};
ghost use Rattle.program_desk.specs.Statuses.{end_status};

use desk_http::DeskFault;
use edge_io::StdSink;
use program_stores::refuse;
use std::io::Write;
use worlds::{Part, Refusal, print_break};

/// Says why a desk is not open or serves no more, where that can be written, and answers the program's status. The
/// commit at which the log breaks is said on standard output, by the line of every command.
pub fn say_end<O: Write + Drop, E: Write + Drop>(
    out: O,
    faults_out: E,
    end: &Result<(), DeskFault>,
) -> u8
    ensures { result ≡ end_status end.now }
{
    match end {
        Ok(()) => 0,
        Err(DeskFault::LogBroken { id }) => {
            let mut sink = StdSink::new(out);
            let _ = print_break(&mut sink, id);
            3
        }
        Err(DeskFault::KeeperFailed) => refuse(faults_out, &Refusal::Fault { part: Part::Keeper }),
        Err(DeskFault::NoListener) => refuse(faults_out, &Refusal::Fault { part: Part::Source }),
        Err(DeskFault::DoorFailed) => refuse(faults_out, &Refusal::Fault { part: Part::Source }),
        Err(DeskFault::Memory) => refuse(faults_out, &Refusal::Memory),
    }
}
