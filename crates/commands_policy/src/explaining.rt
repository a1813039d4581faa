//! The command `explain`.

ghost use Rattle.std.specs.Prelude.{◌≡◌, IfErr, IfOk, OnOk, Some};
ghost use Rattle.octets.specs.Causes.{HasCause};
ghost use Rattle.git_object.specs.Repository.{Repository};
ghost use Rattle.keeper_api.specs.Undisturbed.{Undisturbed};
ghost use Rattle.rsl_chain.specs.Logs.{IsBrokenAs, log_failed};
ghost use Rattle.worlds.specs.Counts.{Faults, IsCounted};
ghost use Rattle.commands_log.specs.Faults.{of_keeper, of_sink};
ghost use Rattle.policy_reading.specs.Reading.{ReadsLog};
ghost use Rattle.commands_policy.specs.Explaining.{ExplainEnds, ExplainsLog, Prints, explain_ending};

use crate::rule_lines::text_of;
use commands_log::LogCommandFault;
use edge_io::{Failed, Sink, write_all};
use keeper_api::Keeper;
use octets::{Memory, Octets};
use policy_reading::load_epochs;
use ref_patterns::Space;
use rsl_chain::LogFault;
use std::alloc::Global;
use worlds::{Ending, Part, Refusal, print_break};

/// How the program ends.
pub fn explain_ending(outcome: &Result<(), LogCommandFault>) -> Ending
    ensures { result ≡ explain_ending outcome.now }
{
    match outcome {
        Ok(()) => Ending::Done,
        Err(LogCommandFault::Broken { id: _ }) => Ending::Broken,
        Err(LogCommandFault::KeeperFailed) => Ending::Refused {
            refusal: Refusal::Fault { part: Part::Keeper },
        },
        Err(LogCommandFault::SinkFailed) => Ending::Refused {
            refusal: Refusal::Fault { part: Part::Sink },
        },
        Err(LogCommandFault::Memory) => Ending::Refused {
            refusal: Refusal::Memory,
        },
    }
}

// The text that explains a name.
fn load_text<R: Keeper>(
    alloc: Global,
    space: Space,
    name: &[u8],
    keeper: &mut R,
) -> Result<Octets, LogFault>
    ensures explains { IfOk result
        (λ text. ExplainsLog (R.content keeper.new) (record { space = space; text = name.now }) text) }
    ensures broken { IfErr result (λ fault. (r : Repository) → R.content keeper.new ≡ Some r → IsBrokenAs r fault) }
    ensures same { Undisturbed R.Keeper keeper.old keeper.new }
    ensures cause { HasCause log_failed (R.faults keeper.old) (R.faults keeper.new) result }
    ensures reads { OnOk result ((r : Repository) → R.content keeper.new ≡ Some r
        → ReadsLog r (R.reads keeper.old) (R.reads keeper.new)) }
{
    let epochs = match load_epochs(alloc, keeper, None) {
        Ok(epochs) => epochs,
        Err(fault) => return Err(fault),
    };
    match text_of(alloc, &epochs, space, name) {
        Ok(text) => {
            drop(epochs);
            Ok(text)
        }
        Err(Memory) => {
            drop(epochs);
            Err(LogFault::Memory)
        }
    }
}

// Prints the text that explains a name. A break is only found, and not printed.
fn print_text<K: Sink, R: Keeper>(
    alloc: Global,
    space: Space,
    name: &[u8],
    sink: &mut K,
    keeper: &mut R,
) -> Result<(), LogCommandFault>
    ensures prints { Prints (R.content keeper.new) (K.contents sink.old) (K.contents sink.new)
        (record { space = space; text = name.now }) result }
    ensures same { Undisturbed R.Keeper keeper.old keeper.new }
    ensures keeper_cause { HasCause of_keeper (R.faults keeper.old) (R.faults keeper.new) result }
    ensures sink_cause { HasCause of_sink (K.faults sink.old) (K.faults sink.new) result }
    ensures reads { OnOk result ((r : Repository) → R.content keeper.new ≡ Some r
        → ReadsLog r (R.reads keeper.old) (R.reads keeper.new)) }
{
    let text = load_text(alloc, space, name, keeper)?;
    write_all(sink, text.as_slice())?;
    Ok(())
}

/// Prints which rules protect a name under the policy in force after the whole log: a line for each reached rule in
/// pre-order, `unprotected` where there is none, or `no-policy`. `Broken` comes exactly where the log breaks, and the
/// line that names the break was printed. After the other refusals a front of the text went out. The store is as
/// before. Each entry of the log is read twice, and each policy that one brings once.
pub fn explain<K: Sink, R: Keeper>(
    alloc: Global,
    space: Space,
    name: &[u8],
    sink: &mut K,
    keeper: &mut R,
) -> Result<(), LogCommandFault>
    ensures ends { ExplainEnds (R.content keeper.new) (K.contents sink.old) (K.contents sink.new)
        (record { space = space; text = name.now }) result }
    ensures same { Undisturbed R.Keeper keeper.old keeper.new }
    ensures reads { OnOk result ((r : Repository) → R.content keeper.new ≡ Some r
        → ReadsLog r (R.reads keeper.old) (R.reads keeper.new)) }
    ensures counted { (rest : Faults) → IsCounted (explain_ending result)
        (record rest { sink = K.faults sink.old; keeper = R.faults keeper.old })
        (record rest { sink = K.faults sink.new; keeper = R.faults keeper.new }) }
{
    let outcome = print_text(alloc, space, name, sink, keeper);
    match &outcome {
        Ok(()) => Ok(()),
        Err(LogCommandFault::Broken { id }) => match print_break(sink, id) {
            Ok(()) => Err(LogCommandFault::Broken { id: *id }),
            Err(Failed) => Err(LogCommandFault::SinkFailed),
        },
        Err(LogCommandFault::KeeperFailed) => Err(LogCommandFault::KeeperFailed),
        Err(LogCommandFault::SinkFailed) => Err(LogCommandFault::SinkFailed),
        Err(LogCommandFault::Memory) => Err(LogCommandFault::Memory),
    }
}
