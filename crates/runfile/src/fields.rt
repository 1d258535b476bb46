// The bytes in a run file, and parts of it. A byte past the end reads as 0. Numbers are little-endian: they are made of bytes by
// std's `from_le_bytes`, and proofs/Numbers.antt has that those are the numbers of specs/Fields.antt.
ghost use Rattle.std.specs.Prelude.{◌≡◌, ℕ, ◌+◌, ◌<◌, take, drop, slice_index};
ghost use Rattle.runfile.specs.Fields.{byte_at};

// The byte at a position.
pub fn byte_at(file: &[u8], at: usize) -> u8
    ensures { result ≡ byte_at file.now at }
{
    file.get(at).copied().unwrap_or(0)
}

// So many bytes from a position on.
pub fn bytes_at<const N: usize>(file: &[u8], at: usize) -> [u8; N]
    ensures { (k : ℕ) → k < N → slice_index result k ≡ byte_at file.now (at + k) }
{
    let left = rest(file, at);
    match left.first_chunk() {
        Some(bytes) => *bytes,
        None => {
            let mut bytes = [0; N];
            bytes[..left.len()].copy_from_slice(left);
            bytes
        }
    }
}

// The first so many bytes, or all if there are fewer.
pub fn first(bytes: &[u8], count: usize) -> &[u8]
    ensures { result.now ≡ take count bytes.now }
{
    &bytes[..count.min(bytes.len())]
}

// The bytes from a position on.
pub fn rest(bytes: &[u8], at: usize) -> &[u8]
    ensures { result.now ≡ drop at bytes.now }
{
    &bytes[at.min(bytes.len())..]
}
