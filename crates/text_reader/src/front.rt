//! What stands in front of a text: given bytes, a number of bytes, a word, a line.

ghost use Rattle.std.specs.Prelude.{◌≡◌, ◌≢◌, ◌++◌, ◌∷◌, ◌↔◌, ℕ, List, false, length, IfSome, IfNone, IsTrue};
ghost use Rattle.text_reader.specs.Line.{Begins, has_byte};

/// Whether two texts are the same.
pub fn same_bytes(left: &[u8], right: &[u8]) -> bool
    ensures { IsTrue result ↔ (left.now ≡ right.now) }
{
    left == right
}

/// Whether the text begins with `front`.
pub fn begins_with(text: &[u8], front: &[u8]) -> bool
    ensures { IsTrue result ↔ Begins front.now text.now }
{
    text.starts_with(front)
}

/// What stands after `front`, or None where the text does not begin with it.
pub fn strip_front<'a>(text: &'a [u8], front: &[u8]) -> Option<&'a [u8]>
    ensures found { IfSome result (λ rest. text.now ≡ front.now ++ rest.now) }
    ensures none { IfNone result ((rest : List ℕ) → text.now ≢ front.now ++ rest) }
{
    text.strip_prefix(front)
}

/// The first `len` bytes and the rest, or None where there are fewer.
pub fn split_front(text: &[u8], len: usize) -> Option<(&[u8], &[u8])>
    ensures found { IfSome result (λ parts. text.now ≡ parts.0.now ++ parts.1.now) }
    ensures len { IfSome result (λ parts. length parts.0.now ≡ len) }
    ensures none { IfNone result ((front rest : List ℕ) → length front ≡ len → text.now ≢ front ++ rest) }
{
    if text.len() < len {
        return None;
    }
    Some(text.split_at(len))
}

/// What stands before the first byte that is `end`, and what stands after it, or None where there is none.
fn split_at_byte(text: &[u8], end: u8) -> Option<(&[u8], &[u8])>
    ensures found { IfSome result (λ parts. text.now ≡ parts.0.now ++ end ∷ parts.1.now) }
    ensures first { IfSome result (λ parts. has_byte end parts.0.now ≡ false) }
    ensures none { IfNone result (has_byte end text.now ≡ false) }
{
    'bytes: for i in 0..text.len() {
        if text[i] == end {
            let (front, more) = text.split_at(i);
            let (_, rest) = more.split_at(1);
            return Some((front, rest));
        }
    }
    None
}

/// The first line without its line feed, and the rest, or None where there is no line feed.
pub fn split_line(text: &[u8]) -> Option<(&[u8], &[u8])>
    ensures found { IfSome result (λ parts. text.now ≡ parts.0.now ++ 10 ∷ parts.1.now) }
    ensures first { IfSome result (λ parts. has_byte 10 parts.0.now ≡ false) }
    ensures none { IfNone result (has_byte 10 text.now ≡ false) }
{
    split_at_byte(text, b'\n')
}

/// What stands before the first space and what stands after it, or None where there is no space.
pub fn split_word(text: &[u8]) -> Option<(&[u8], &[u8])>
    ensures found { IfSome result (λ parts. text.now ≡ parts.0.now ++ 32 ∷ parts.1.now) }
    ensures first { IfSome result (λ parts. has_byte 32 parts.0.now ≡ false) }
    ensures none { IfNone result (has_byte 32 text.now ≡ false) }
{
    split_at_byte(text, b' ')
}

/// What stands before the first zero byte and what stands after it, or None where there is none.
pub fn split_at_zero(text: &[u8]) -> Option<(&[u8], &[u8])>
    ensures found { IfSome result (λ parts. text.now ≡ parts.0.now ++ 0 ∷ parts.1.now) }
    ensures first { IfSome result (λ parts. has_byte 0 parts.0.now ≡ false) }
    ensures none { IfNone result (has_byte 0 text.now ≡ false) }
{
    split_at_byte(text, 0)
}
