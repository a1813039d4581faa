//! Git's tag object.

ghost use Rattle.std.specs.Prelude.{IfOk, IfErr, IsErrOf};

use crate::header_lines::{append_id_line, append_type_line, split_id_line, split_type_line};
use crate::{Kind, ObjectFault, ObjectId};
use octets::{Memory, Octets};
use std::alloc::Global;

/// A tag: the object that it names, that object's kind as the tag says it, and the bytes that follow.
#[derive(Drop)]
pub struct Tag {
    pub object: ObjectId,
    pub kind: Kind,
    pub rest: Octets,
}

impl Tag {
    ghost use Rattle.git_object.specs.Faults.{Refuses};
    ghost use Rattle.git_object.specs.Tags.{IsTag, IsTagFault, IsTagText};

    /// The tag of a body: `object <id>` LF, `type <kind>` LF, then any bytes (Git's tag object). `Malformed`
    /// where the first line is no object's (at 0), or where the second is no kind's (at that line).
    /// Memory is taken only for a tag, so no other body is answered for want of it.
    pub fn read(alloc: Global, body: &[u8]) -> Result<Tag, ObjectFault>
        ensures found { IfOk result (λ tag. IsTagText tag body.now) }
        ensures bad { IfErr result (Refuses IsTagFault body.now) }
        ensures formed { IsErrOf result ObjectFault.Memory → IsTag body.now }
    {
        let Some(first) = split_id_line(body, b"object ") else {
            return Err(ObjectFault::Malformed { at: 0 });
        };
        let Some(second) = split_type_line(first.1) else {
            return Err(ObjectFault::Malformed {
                at: body.len() - first.1.len(),
            });
        };
        let rest = Octets::from_slice(alloc, second.1)?;
        Ok(Tag {
            object: first.0,
            kind: second.0,
            rest,
        })
    }

    /// The body of the tag.
    pub fn write(&self, alloc: Global) -> Result<Octets, Memory>
        ensures { IfOk result (IsTagText self.now) }
    {
        let mut text = Octets::new(alloc);
        append_id_line(&mut text, b"object ", &self.object)?;
        append_type_line(&mut text, self.kind)?;
        text.append(self.rest.as_slice())?;
        Ok(text)
    }
}
