//! White space and comments in front of something else.

ghost use Rattle.std.specs.Prelude.{◌≡◌, ℕ, List, IfSome, IfNone};
ghost use Rattle.text_tokens.specs.Space.{IsAfterSpace};

use crate::bytes::is_white_space;
use crate::comment::{after_comment, opens, skip};

/// What follows the white space and the comments at the front of a text; nothing where a comment does not end.
pub fn after_space(bytes: &[u8]) -> Option<&[u8]>
    ensures some { IfSome result (λ found. IsAfterSpace bytes.now found.now) }
    ensures only { IfSome result (λ found. (rest : List ℕ) → IsAfterSpace bytes.now rest → found.now ≡ rest) }
    ensures none { IfNone result ((rest : List ℕ) → IsAfterSpace bytes.now rest → ⊥) }
{
    let mut rest = bytes;
    while !rest.is_empty() {
        if is_white_space(rest[0]) {
            rest = skip(rest, 1);
        } else if opens(rest) {
            rest = after_comment(skip(rest, 2))?;
        } else {
            return Some(rest);
        }
    }
    Some(rest)
}
