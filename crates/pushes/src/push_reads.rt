//! Reading a push.

ghost use Rattle.std.specs.Prelude.{◌≡◌, ◌≤◌, length, IfOk, IfErr};
ghost use Rattle.std.specs.Arc.{arc_value};
ghost use Rattle.pushes.specs.Pushes.{IsPushText, largest_push};
ghost use Rattle.pushes.specs.Refusals.{IsRefused};

use crate::entry_lines::read_entry;
use crate::object_lines::read_objects;
use crate::{LARGEST_PUSH, Push, PushFault};
use octets::Octets;
use std::alloc::Global;
use std::sync::Arc;
use text_reader::strip_front;

// The push of a text that is within the limit, lent as what it is and as bytes.
fn read_within(alloc: Global, whole: &Arc<Octets>, body: &[u8]) -> Result<Push, PushFault>
    requires same { body.now ≡ arc_value whole.now }
    requires small { length body.now ≤ largest_push }
    ensures found { IfOk result (λ push. IsPushText push body.now) }
    ensures bad { IfErr result (IsRefused body.now) }
{
    let Some(text) = strip_front(body, b"gittuf-push 1\n") else {
        return Err(PushFault::Malformed { at: 0 });
    };
    let (objects, rest) = read_objects(alloc, whole, text)?;
    let Some((entry, after)) = read_entry(alloc, objects.as_slice(), rest)? else {
        return Err(PushFault::Malformed {
            at: (body.len() - rest.len()) as u64,
        });
    };
    let Some(tail) = strip_front(after, b"end\n") else {
        return Err(PushFault::Malformed {
            at: (body.len() - after.len()) as u64,
        });
    };
    if !tail.is_empty() {
        return Err(PushFault::Malformed {
            at: (body.len() - tail.len()) as u64,
        });
    }
    Ok(Push { entry, objects })
}

/// The push of a text. `TooLarge` comes exactly where the text is longer than 64 MiB, and else, as `Malformed`,
/// exactly at the first line that is wrong. The bodies of its objects are parts of the text, which is not copied.
pub fn read_push(alloc: Global, text: Octets) -> Result<Push, PushFault>
    ensures found { IfOk result (λ push. IsPushText push text) }
    ensures bad { IfErr result (IsRefused text) }
{
    let length = text.len() as u64;
    if length > LARGEST_PUSH {
        return Err(PushFault::TooLarge { length });
    }
    let Ok(whole) = Arc::new(alloc, text) else {
        return Err(PushFault::Memory);
    };
    read_within(alloc, &whole, whole.as_slice())
}
