//! Where the last whole line of some bytes ends.
ghost use Rattle.std.specs.Prelude.{◌≢◌, ◌<◌, ◌≤◌, length, slice_index, take};
ghost use Rattle.epx_merge.specs.LogParts.{EndsLine};

/// The number of bytes up to the last line feed, that one included.
pub fn lines_end(bytes: &[u8]) -> usize
    ensures within { result ≤ length bytes.now }
    ensures lines { EndsLine (take result bytes.now) }
    ensures last { (i : _) → result ≤ i → i < length bytes.now → slice_index bytes.now i ≢ 10 }
{
    let mut end = bytes.len();
    while end > 0 && bytes[end - 1] != b'\n' {
        end -= 1;
    }
    end
}
