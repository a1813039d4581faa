//! An object among those of a push.

ghost use Rattle.std.specs.Prelude.{◌≡◌};
ghost use Rattle.std.specs.Option.{option_copied};
ghost use Rattle.pushes.specs.Pushes.{AreRising, object_in};

use git_object::{Object, ObjectId};

/// The object of an id among objects whose ids rise, as those of a push do. It takes no memory.
pub fn find_object<'o>(objects: &'o [Object], id: &ObjectId) -> Option<&'o Object>
    requires { AreRising objects.now }
    ensures { option_copied result ≡ object_in objects.now id.now }
{
    match objects.binary_search_by(|object| object.id().as_bytes().cmp(id.as_bytes())) {
        Ok(place) => Some(&objects[place]),
        Err(_) => None,
    }
}
