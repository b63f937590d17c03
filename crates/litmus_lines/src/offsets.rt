//! Bytes of a text by their offsets.

ghost use Rattle.std.specs.Prelude.{◌≡◌, drop, take};

/// The bytes from an offset on.
pub fn bytes_from(text: &[u8], offset: usize) -> &[u8]
    ensures { result.now ≡ drop offset text.now }
{
    text.split_at(offset.min(text.len())).1
}

/// The bytes between two offsets.
pub fn between(text: &[u8], from: usize, to: usize) -> &[u8]
    ensures { result.now ≡ drop from (take to text.now) }
{
    let front = text.split_at(to.min(text.len())).0;
    bytes_from(front, from)
}

/// Where the line begins in which an offset lies.
pub fn line_begin(text: &[u8], offset: usize) -> usize {
    let mut begin = 0;
    for (place, byte) in text.iter().take(offset).enumerate() {
        if *byte == b'\n' {
            begin = place.saturating_add(1);
        }
    }
    begin
}
