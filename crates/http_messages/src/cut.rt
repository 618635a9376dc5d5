//! Where a head ends.
ghost use Rattle.std.specs.Prelude.{◌≡◌, ◌≤◌, length, take, option_map, IfSome};
ghost use Rattle.http_messages.specs.Cut.{head_cut, end_length};

/// How long the LF and the line end at the front are, or 0.
fn end_length(bytes: &[u8]) -> usize
    ensures { result ≡ end_length bytes.now }
{
    match bytes {
        [b'\n', b'\n', ..] => 2,
        [b'\n', b'\r', b'\n', ..] => 3,
        _ => 0,
    }
}

/// How long the head at the front is: all up to and with the first LF that LF or CR LF follows, and that line end. `None` where no
/// head ends in these bytes.
#[tactic(auto, using(crate::proofs::CutLemmas::cut_found, crate::proofs::CutLemmas::cut_past, crate::proofs::CutLemmas::cut_start, crate::proofs::CutLemmas::cut_over))]
pub(crate) fn head_length(bytes: &[u8]) -> Option<usize>
    ensures cut { option_map (λ n. take n bytes.now) result ≡ head_cut bytes.now }
    ensures within { IfSome result (λ n. n ≤ length bytes.now) }
{
    for i in 0..bytes.len() {
        let more = end_length(&bytes[i..]);
        if more > 0 {
            return Some(i + more);
        }
    }
    None
}
