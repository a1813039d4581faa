//! What the definition says at the edges. No call needs this function: its contract is the laws.

ghost use Rattle.std.specs.Prelude.{◌≡◌, ◌∷◌, [], codes};
ghost use Rattle.octets.specs.Escaped.{escaped};

/// The bytes on both sides of each edge, the sign itself, and the last byte.
pub fn edges()
    ensures none { escaped [] ≡ [] }
    ensures zero { escaped (0 ∷ []) ≡ codes "%00" }
    ensures space { escaped (32 ∷ 33 ∷ []) ≡ codes "%20!" }
    ensures sign { escaped (36 ∷ 37 ∷ 38 ∷ []) ≡ codes "$%25&" }
    ensures end { escaped (126 ∷ 127 ∷ []) ≡ codes "~%7F" }
    ensures last { escaped (128 ∷ 255 ∷ []) ≡ codes "%80%FF" }
{}
