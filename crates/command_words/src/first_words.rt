//! The first word of a command.

ghost use Rattle.std.specs.Prelude.{◌≡◌, ◌≢◌, ◌∷◌, ◌↔◌, ℕ, List, map, string_bytes, IfSome, IfNone, IsTrue};
ghost use Rattle.command_words.specs.FirstWords.{name_text};

use crate::commands::CommandName;

/// Whether a word is this one.
pub(crate) fn is_word(word: &str, wanted: &str) -> bool
    ensures { IsTrue result ↔ (word.now ≡ wanted.now) }
{
    word == wanted
}

/// The first word and the words after it; None where there is none.
pub(crate) fn split_first(words: &[String]) -> Option<(&str, &[String])>
    ensures found { IfSome result (λ found. map string_bytes words.now ≡ found.0.now ∷ map string_bytes found.1.now) }
    ensures none { IfNone result ((first : List ℕ) (rest : List (List ℕ)) → map string_bytes words.now ≢ first ∷ rest) }
{
    let (first, rest) = words.split_first()?;
    Some((first.as_str(), rest))
}

/// The command that a first word names; None where it names none.
pub(crate) fn named(word: &str) -> Option<CommandName>
    ensures found { IfSome result (λ name. word.now ≡ name_text name) }
    ensures none { IfNone result ((name : CommandName) → word.now ≢ name_text name) }
{
    if is_word(word, "verify-ref") {
        return Some(CommandName::VerifyRef);
    }
    if is_word(word, "verify-global") {
        return Some(CommandName::VerifyGlobal);
    }
    if is_word(word, "export") {
        return Some(CommandName::Export);
    }
    if is_word(word, "import") {
        return Some(CommandName::Import);
    }
    if is_word(word, "key-gen") {
        return Some(CommandName::KeyGen);
    }
    if is_word(word, "log") {
        return Some(CommandName::Log);
    }
    if is_word(word, "record") {
        return Some(CommandName::Record);
    }
    if is_word(word, "seal") {
        return Some(CommandName::Seal);
    }
    if is_word(word, "snapshot") {
        return Some(CommandName::Snapshot);
    }
    if is_word(word, "policy-apply") {
        return Some(CommandName::PolicyApply);
    }
    if is_word(word, "explain") {
        return Some(CommandName::Explain);
    }
    if is_word(word, "annotate") {
        return Some(CommandName::Annotate);
    }
    if is_word(word, "approve") {
        return Some(CommandName::Approve);
    }
    if is_word(word, "demo") {
        return Some(CommandName::Demo);
    }
    if is_word(word, "mirror") {
        return Some(CommandName::Mirror);
    }
    if is_word(word, "evidence-make") {
        return Some(CommandName::EvidenceMake);
    }
    if is_word(word, "evidence-check") {
        return Some(CommandName::EvidenceCheck);
    }
    if is_word(word, "serve") {
        return Some(CommandName::Serve);
    }
    if is_word(word, "push") {
        return Some(CommandName::Push);
    }
    None
}
