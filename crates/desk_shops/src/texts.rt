//! The text of a repository.

ghost use Rattle.std.specs.Prelude.{◌≡◌, Some};
ghost use Rattle.octets.specs.Causes.{HasCause};
ghost use Rattle.git_object.specs.Repository.{Repository};
ghost use Rattle.keeper_api.specs.Undisturbed.{Undisturbed};
ghost use Rattle.desk_shops.specs.Texts.{IsTextOf, fault_as, past_or, text_keeper_failed};

use crate::TextFault;
use crate::short_texts::ShortText;
use clone_stream::{ExportFault, write_stream};
use keeper_api::Keeper;
use octets::Octets;
use std::alloc::Global;

// This fault, or that the text is too large.
fn past_or(is_past: bool, fault: TextFault) -> TextFault
    ensures { result ≡ past_or is_past fault }
{
    if is_past { TextFault::TooLarge } else { fault }
}

// What a refusal of the stream is, by whether what went out passed the limit.
fn fault_as(is_past: bool, fault: ExportFault) -> TextFault
    ensures { result ≡ fault_as is_past fault }
{
    match fault {
        ExportFault::Damaged { id } => past_or(is_past, TextFault::Damaged { id }),
        ExportFault::TooLarge { limit: _ } => TextFault::TooLarge,
        ExportFault::KeeperFailed => TextFault::KeeperFailed,
        ExportFault::SinkFailed => past_or(is_past, TextFault::Memory),
        ExportFault::Memory => past_or(is_past, TextFault::Memory),
    }
}

/// The stream of a keeper's repository as one text, of 256 MiB at most. `TooLarge` comes exactly where the text passes
/// that before the first object that is kept damaged, and `Damaged` exactly where that object comes first. The keeper
/// is as before.
pub fn stream_text<R: Keeper>(alloc: Global, keeper: &mut R) -> Result<Octets, TextFault>
    ensures told { (r : Repository) → R.content keeper.new ≡ Some r → IsTextOf r result }
    ensures same { Undisturbed R.Keeper keeper.old keeper.new }
    ensures cause { HasCause text_keeper_failed (R.faults keeper.old) (R.faults keeper.new) result }
{
    let mut sink = ShortText::new(alloc);
    match write_stream(alloc, keeper, &mut sink) {
        Ok(()) => {
            if sink.is_past() {
                return Err(TextFault::TooLarge);
            }
            Ok(sink.into_text())
        }
        Err(fault) => Err(fault_as(sink.is_past(), fault)),
    }
}
