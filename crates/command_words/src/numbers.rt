//! Numbers from 1 to a limit.

ghost use Rattle.std.specs.Prelude.{ℕ, IfSome, IfNone};
ghost use Rattle.command_words.specs.Numbers.{IsCount};

use text_reader::read_decimal;

/// The number from 1 to `most` that the whole text writes in decimal digits, without a sign or a leading zero; None for
/// any other text. It takes no memory.
pub fn read_count(text: &[u8], most: u32) -> Option<u32>
    ensures found { IfSome result (IsCount most text.now) }
    ensures none { IfNone result ((count : ℕ) → IsCount most text.now count → ⊥) }
{
    let count = read_decimal(text)?;
    if count < 1 || count > u64::from(most) {
        return None;
    }
    Some(count as u32)
}
