//! What holds of the readings. No call needs these functions: their contracts are the laws.

ghost use Rattle.std.specs.Prelude.{◌≡◌, ◌↔◌, ℕ, true, List, Result, Ok, is_err};
ghost use Rattle.base64.specs.GeneralPurpose.{IsBytes};
ghost use Rattle.dsse_envelope.specs.Envelopes.{reading};
ghost use Rattle.dsse_envelope.specs.declared.envelope.Envelope.{Envelope};
ghost use Rattle.dsse_envelope.specs.declared.envelope.EnvelopeFault.{EnvelopeFault};
ghost use Rattle.rsl_chain.specs.Reading.{entry_of};
ghost use Rattle.rsl_chain.specs.declared.entries.Entry.{Entry};
ghost use Rattle.reading_laws.specs.EntryTexts.{IsTextOf};
ghost use Rattle.reading_laws.specs.EnvelopeTexts.{IsReadAs};

/// A body is read as an entry exactly where it is the text of a draft inside the grammar, with some committer, and
/// with the line of a signature or without one; the entry says what the draft says, by whom it is signed and over
/// what. Each body that is the text of no draft is refused.
pub fn entry_where()
    ensures read { (body : List ℕ) (entry : Entry) → IsBytes body
        → (entry_of body ≡ Ok entry) ↔ IsTextOf body entry }
    ensures refused { (body : List ℕ) → IsBytes body
        → (is_err (entry_of body) ≡ true) ↔ ((entry : Entry) → IsTextOf body entry → ⊥) }
{}

/// A text is read as an envelope exactly where it is JSON whose value has a payload, a type and 1 to 64 signatures,
/// each with its texts, and all base64 in it decodes. Else it is refused: as no JSON; for a field, where one of the
/// three is not there or a signature among 1 to 64 lacks its texts; for their count; or for base64, where all else is
/// there.
pub fn envelope_where()
    ensures { (text : List ℕ) (answer : Result Envelope EnvelopeFault)
        → (reading text ≡ answer) ↔ IsReadAs text answer }
{}
