//! What holds of all keys of two levels.

ghost use Rattle.lms_keys.specs.Laws.{OneLink};

/// Two signatures that use one leaf of the top key begin with the same bytes: the top key's signature with that leaf
/// and the public key that it is of, which the top key and the leaf determine.
pub fn one_link()
    ensures { OneLink }
{}
