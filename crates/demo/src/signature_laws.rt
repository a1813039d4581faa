//! Laws over the repository of a demonstration. No call needs this function: its contract is the law.

ghost use Rattle.demo.specs.SignatureLaws.{AreGood};

use crate::key_laws::keys_sign_well;

/// Each signature is good for its key.
pub fn signatures_good()
    ensures { AreGood }
{
    keys_sign_well();
}
