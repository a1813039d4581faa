//! Laws over the keys of a demonstration. No call needs this function: its contract is the law.

ghost use Rattle.demo.specs.KeyLaws.{SignWell};

/// What a key signs with one of its leaves is good for the key.
pub fn keys_sign_well()
    ensures { SignWell }
{}
