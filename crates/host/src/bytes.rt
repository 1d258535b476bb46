// Numbers as the row has them: little-endian, in as many bytes as their type has.
ghost use Rattle.std.specs.Prelude.{◌≡◌, ℕ, ◌+◌, ◌^◌, ◌<◌, ◌≤◌, length};
ghost use Rattle.std.specs.List.{between};
ghost use Rattle.std.proofs.lemmas.List.Edits.{sets};
ghost use Rattle.host.specs.Parts.{number_at, bytes_of};

pub trait Number: Copy + Drop + Default {
    const WIDTH: usize;

    ghost WIDTH: { ℕ };

    // The number that a value stands for.
    ghost value: { Self → ℕ };

    fn read(bytes: &[u8], at: usize) -> Self
        requires { at + WIDTH ≤ length bytes.now }
        ensures { value result ≡ number_at WIDTH bytes.now at };

    fn write(self, bytes: &mut [u8], at: usize)
        requires { at + WIDTH ≤ length bytes.old }
        ensures written { bytes.new ≡ sets bytes.old at (bytes_of WIDTH (value self)) }
        ensures small { value self < 256 ^ WIDTH };

    // The default stands for 0.
    ghost zero: { (x : Self) → Self.is_default x → value x ≡ 0 };
}

impl Number for u8 {
    const WIDTH: usize = 1;

    ghost WIDTH = { 1 };

    ghost value = { λ x. x };

    fn read(bytes: &[u8], at: usize) -> u8 {
        bytes[at]
    }

    fn write(self, bytes: &mut [u8], at: usize) {
        bytes[at] = self;
    }

    ghost zero = { λ x e. e };
}

// u16, u32 and u64 alike, each written out: rt ci refuses an impl that a macro of the repository writes.
impl Number for u16 {
    const WIDTH: usize = 2;

    ghost WIDTH = { 2 };

    ghost value = { λ x. x };

    fn read(bytes: &[u8], at: usize) -> u16 {
        u16::from_le_bytes(bytes_at(bytes, at))
    }

    fn write(self, bytes: &mut [u8], at: usize) {
        put_bytes(bytes, at, &u16::to_le_bytes(self));
    }

    ghost zero = { λ x e. e };
}

impl Number for u32 {
    const WIDTH: usize = 4;

    ghost WIDTH = { 4 };

    ghost value = { λ x. x };

    fn read(bytes: &[u8], at: usize) -> u32 {
        u32::from_le_bytes(bytes_at(bytes, at))
    }

    fn write(self, bytes: &mut [u8], at: usize) {
        put_bytes(bytes, at, &u32::to_le_bytes(self));
    }

    ghost zero = { λ x e. e };
}

impl Number for u64 {
    const WIDTH: usize = 8;

    ghost WIDTH = { 8 };

    ghost value = { λ x. x };

    fn read(bytes: &[u8], at: usize) -> u64 {
        u64::from_le_bytes(bytes_at(bytes, at))
    }

    fn write(self, bytes: &mut [u8], at: usize) {
        put_bytes(bytes, at, &u64::to_le_bytes(self));
    }

    ghost zero = { λ x e. e };
}

fn bytes_at<const N: usize>(bytes: &[u8], at: usize) -> [u8; N]
    requires { at + N ≤ length bytes.now }
    ensures { result ≡ between at (at + N) bytes.now }
{
    match bytes[at..].first_chunk() {
        Some(bytes) => *bytes,
        None => [0; N],
    }
}

// Byte by byte: `copy_from_slice` asks whether the two overlap, which takes longer than to copy so few, and of any number of bytes
// it is a call of the C library's memmove.
pub fn put_bytes(bytes: &mut [u8], at: usize, new: &[u8])
    requires { at + length new.now ≤ length bytes.old }
    ensures { bytes.new ≡ sets bytes.old at new.now }
{
    for (k, byte) in new.iter().enumerate() {
        bytes[at + k] = *byte;
    }
}
