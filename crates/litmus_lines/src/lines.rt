//! Lines of a text.
ghost use Rattle.std.specs.Prelude.{◌≡◌, ◌==◌, ◌≤◌, length, option_map, count_by};
ghost use Rattle.std.specs.List.{prefix_len};
ghost use Rattle.litmus_lines.specs.FirstLine.{is_inside};
ghost use Rattle.litmus_lines.specs.Internal.FirstLineReading.{line_at};
ghost use Rattle.litmus_lines.specs.Faults.{line_number};

/// How many bytes from the front on are no LF.
pub(crate) fn line_len(bytes: &[u8]) -> usize
    ensures value { result ≡ prefix_len is_inside bytes.now }
    ensures within { result ≤ length bytes.now }
{
    bytes.iter().take_while(|byte| **byte != b'\n').count()
}

/// The bytes before the first LF and those after it.
#[tactic(auto, unfolding(crate::specs::Internal::FirstLineReading::line_at))]
pub(crate) fn split_line(bytes: &[u8]) -> Option<(&[u8], &[u8])>
    ensures { option_map (λ x. (x.0.now, x.1.now)) result ≡ line_at bytes.now }
{
    let end = line_len(bytes);
    if end < bytes.len() {
        let (line, rest) = bytes.split_at(end);
        Some((line, rest.split_at(1).1))
    } else {
        None
    }
}

/// How many LFs the bytes have.
fn line_ends(bytes: &[u8]) -> usize
    ensures value { result ≡ count_by (λ b. b == 10) bytes.now }
    ensures within { result ≤ length bytes.now }
{
    bytes.iter().filter(|byte| **byte == b'\n').count()
}

/// The line on which the byte with this index stands.
pub fn line_number(bytes: &[u8], index: usize) -> u32
    ensures { result ≡ line_number bytes.now index }
{
    let before = bytes.split_at(index.min(bytes.len())).0;
    line_ends(before).min(4_294_967_294) as u32 + 1
}
