//! Names in a space: `git:` or `file:` and any text.

ghost use Rattle.std.specs.Prelude.{ℕ, List, IfSome, IfNone};
ghost use Rattle.ref_patterns.specs.declared.space.Space.{Space};
ghost use Rattle.command_words.specs.Spaced.{IsSpaced};

use ref_patterns::Space;
use text_reader::strip_front;

/// The space whose prefix stands in front, and what stands after it, which may be nothing; None where no prefix does.
/// It takes no memory.
pub fn split_space(text: &[u8]) -> Option<(Space, &[u8])>
    ensures found { IfSome result (λ found. IsSpaced text.now found.0 found.1.now) }
    ensures none { IfNone result ((space : Space) (rest : List ℕ) → IsSpaced text.now space rest → ⊥) }
{
    if let Some(rest) = strip_front(text, b"git:") {
        return Some((Space::Git, rest));
    }
    if let Some(rest) = strip_front(text, b"file:") {
        return Some((Space::File, rest));
    }
    None
}
