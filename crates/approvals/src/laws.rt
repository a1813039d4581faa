//! What holds of all envelopes.

ghost use Rattle.std.specs.Prelude.{◌≡◌, List};
ghost use Rattle.dsse_envelope.specs.declared.envelope.Envelope.{Envelope};
ghost use Rattle.root_metadata.specs.declared.keys.Key.{Key};
ghost use Rattle.approvals.specs.Signers.{AreSigners, env_signers};

/// An id is among an envelope's signers exactly where a key of this id is among those that are asked, and some
/// signature, which names it or no key, is good by it over the envelope's encoding.
pub fn signers_where()
    ensures { (envelope : Envelope) (keys : List Key) → AreSigners envelope keys (env_signers envelope keys) }
{}
