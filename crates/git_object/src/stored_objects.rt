//! An object with the id that its kind and body have.

ghost use Rattle.std.specs.Prelude.{◌≡◌, ◌≤◌, ◌-◌, drop, length, take, IfOk};
ghost use Rattle.std.specs.Arc.{arc_value};
ghost use Rattle.git_object.specs.Objects.{object_id};

use crate::bodies::Body;
use crate::{Kind, ObjectId, id_of};
use octets::{Copied, Memory, Octets};
use std::alloc::Global;
use std::marker::Model;
use std::sync::Arc;

/// The most bytes that the body of an object may have: 16 MiB.
pub const LARGEST_BODY: u64 = 16777216;

// What the copies of an object share.
#[derive(Drop)]
struct Stored {
    id: ObjectId,
    kind: Kind,
    body: Body,
}

/// A kind and a body. The id is computed once, when the object is made; all of it is shared among copies, so that a
/// copy is one pointer.
#[derive(Drop)]
pub struct Object {
    stored: Arc<Stored>,
}

impl Model for Object {
    ghost use Rattle.git_object.specs.Objects.{Pair};

    ghost Value = { Pair };

    ghost use Rattle.std.specs.Prelude.{◌≡◌};
    ghost use Rattle.std.specs.Arc.{arc_value};
    ghost use Rattle.git_object.specs.Objects.{object_id};

    ghost view = { λ o. record { kind = (arc_value o.stored).kind; body = (arc_value o.stored).body } };

    ghost invariant = { λ o. (arc_value o.stored).id ≡ object_id (arc_value o.stored).kind (arc_value o.stored).body };
}

impl Object {
    /// An object of this kind and body, whose id is computed.
    pub fn new(alloc: Global, kind: Kind, body: Octets) -> Result<Object, Memory>
        ensures { IfOk result (λ o. o ≡ record { kind = kind; body = body }) }
    {
        let id = id_of(kind, body.as_slice());
        Object::of(alloc, id, kind, Body::own(body))
    }

    /// An object of this kind and body under the id that they have, which is not computed again.
    pub fn identified(
        alloc: Global,
        id: ObjectId,
        kind: Kind,
        body: Octets,
    ) -> Result<Object, Memory>
        requires { id ≡ object_id kind body }
        ensures { IfOk result (λ o. o ≡ record { kind = kind; body = body }) }
    {
        Object::of(alloc, id, kind, Body::own(body))
    }

    /// An object of this kind, whose body is the part of a text from a byte up to another, under the id that it has,
    /// which is not computed again. The body is not copied: the text stays as long as the object or a copy of it.
    pub fn shared(
        alloc: Global,
        id: ObjectId,
        kind: Kind,
        text: &Arc<Octets>,
        from: usize,
        to: usize,
    ) -> Result<Object, Memory>
        requires order { from ≤ to }
        requires within { to ≤ length (arc_value text.now) }
        requires own { id ≡ object_id kind (take (to - from) (drop from (arc_value text.now))) }
        ensures { IfOk result (λ o. o ≡ record { kind = kind; body = take (to - from) (drop from (arc_value text.now)) }) }
    {
        let text = Arc::try_clone(text)?;
        Object::of(alloc, id, kind, Body::shared(text, from, to))
    }

    // An object of this kind and body under the id that they have.
    fn of(alloc: Global, id: ObjectId, kind: Kind, body: Body) -> Result<Object, Memory>
        requires { id ≡ object_id kind body }
        ensures { IfOk result (λ o. o ≡ record { kind = kind; body = body }) }
    {
        let stored = Arc::new(alloc, Stored { id, kind, body })?;
        Ok(Object { stored })
    }

    /// The object's own id, which is not computed again.
    pub fn id(&self) -> ObjectId
        ensures { result ≡ object_id self.now.kind self.now.body }
    {
        self.stored.id
    }

    /// The kind.
    pub fn kind(&self) -> Kind
        ensures { result ≡ self.now.kind }
    {
        self.stored.kind
    }

    /// The body, lent.
    pub fn body(&self) -> &[u8]
        ensures { result.now ≡ self.now.body }
    {
        self.stored.body.as_slice()
    }
}

impl Copied for Object {
    fn copied(&self) -> Result<Object, Memory> {
        let stored = Arc::try_clone(&self.stored)?;
        Ok(Object { stored })
    }
}
