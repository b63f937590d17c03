//! Comments, which nest.

ghost use Rattle.std.specs.Prelude.{◌≡◌, ◌<◌, ◌≤◌, ℕ, List, drop, length, IfSome, IfNone, IsTrue};
ghost use Rattle.text_tokens.specs.Comments.{Inside, opens, closes};

/// What follows the first bytes.
pub fn skip(bytes: &[u8], count: usize) -> &[u8]
    requires { count ≤ length bytes.now }
    ensures { result.now ≡ drop count bytes.now }
{
    bytes.split_at(count).1
}

/// Whether a comment begins.
pub fn opens(bytes: &[u8]) -> bool
    ensures value { result ≡ opens bytes.now }
    ensures long { IsTrue result → 2 ≤ length bytes.now }
{
    bytes.len() >= 2 && bytes[0] == b'(' && bytes[1] == b'*'
}

fn closes(bytes: &[u8]) -> bool
    ensures { result ≡ closes bytes.now }
{
    bytes.len() >= 2 && bytes[0] == b'*' && bytes[1] == b')'
}

/// What follows a comment whose `(*` has been read: the text after its `*)`, if that is there.
pub fn after_comment(bytes: &[u8]) -> Option<&[u8]>
    ensures some { IfSome result (λ rest. Inside bytes.now rest.now) }
    ensures none { IfNone result ((rest : List ℕ) → Inside bytes.now rest → ⊥) }
{
    let mut depth: usize = 1;
    let mut rest = bytes;
    while rest.len() >= 2 {
        if closes(rest) {
            if depth == 1 {
                return Some(skip(rest, 2));
            }
            depth -= 1;
            rest = skip(rest, 2);
        } else if opens(rest) {
            depth += 1;
            rest = skip(rest, 2);
        } else {
            rest = skip(rest, 1);
        }
    }
    None
}
