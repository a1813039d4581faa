//! How long the records of objects are, and the objects of ids.

ghost use Rattle.std.specs.Prelude.{◌≡◌, length};
ghost use Rattle.pushes.specs.Pushes.{own_record};

use clone_stream::object_line;
use git_object::Object;

/// How many bytes an object's record in a push has.
pub(crate) fn record_len(object: &Object) -> u64
    ensures { result ≡ length (own_record object.now) }
{
    let line = object_line(&object.id(), object);
    line.as_slice().len() as u64 + object.body().len() as u64 + 1
}
