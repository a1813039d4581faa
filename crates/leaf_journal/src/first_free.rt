//! The least leaf that may sign.

ghost use Rattle.std.specs.Prelude.{◌≡◌, ◌≤◌, ◌^◌, length, IfNone, IfSome};
ghost use Rattle.leaf_journal.specs.Signing.{AllMarked, IsLeast};

/// The least leaf without a mark, or None where each has one.
pub fn first_free(marks: &[u8]) -> Option<usize>
    ensures found { IfSome result (IsLeast marks.now) }
    ensures none { IfNone result (AllMarked marks.now) }
{
    for (leaf, mark) in marks.iter().enumerate() {
        if *mark == 0 {
            return Some(leaf);
        }
    }
    None
}
