// A part of lent memory.
ghost use Rattle.std.specs.Prelude.{◌≡◌, ◌+◌, ◌<◌, ◌≤◌, take, MatchOption};
ghost use Rattle.word.specs.Text.{put_answer, put_out};

// The position after `size` elements from `at` on, if these lie within the first `len`.
pub(crate) fn end(len: usize, at: usize, size: usize) -> Option<usize>
    ensures { MatchOption result (len < at + size) (λ end. (at + size ≤ len) × (end ≡ at + size)) }
{
    // not by `checked_add`, which leaves one test more where `size` is known
    if size <= len && at <= len - size {
        Some(at + size)
    } else {
        None
    }
}

// As many bytes from the start, all of them where there are no more.
pub fn first(s: &[u8], count: usize) -> &[u8]
    ensures { result.now ≡ take count s.now }
{
    &s[..count.min(s.len())]
}

// Writes some bytes, if there is room.
pub(crate) fn put_bytes(bytes: &[u8], out: &mut [u8], at: usize) -> Option<usize>
    ensures answer { result ≡ put_answer at bytes.now out.old }
    ensures written { out.new ≡ put_out at bytes.now out.old }
{
    let next = end(out.len(), at, bytes.len())?;
    out[at..next].copy_from_slice(bytes);
    Some(next)
}
