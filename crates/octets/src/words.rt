// Numbers in slices of bytes, the highest byte first.
ghost use Rattle.std.specs.Prelude.{◌≡◌, ℕ, ◌+◌, ◌≤◌, length, take, drop};
ghost use Rattle.octets.specs.BigEndian.{to_bytes, from_bytes};
ghost use Rattle.octets.specs.Buffer.{over_at};

// A number of `N` bytes.
pub trait Word<const N: usize>: Copy {
    ghost number: { Self → ℕ };

    // The number that these bytes spell. Its bytes are those.
    fn from_be(bytes: [u8; N]) -> Self
        ensures value { number result ≡ from_bytes bytes.entry }
        ensures bytes { to_bytes N (number result) ≡ bytes.entry };

    fn to_be(self) -> [u8; N]
        ensures { result ≡ to_bytes N (number self) };
}

impl Word<2> for u16 {
    ghost number = { λ n. n };

    fn from_be(bytes: [u8; 2]) -> u16
        ensures value { result ≡ from_bytes bytes }
        ensures bytes { to_bytes 2 result ≡ bytes }
    {
        u16::from_be_bytes(bytes)
    }

    fn to_be(self) -> [u8; 2] {
        u16::to_be_bytes(self)
    }
}

impl Word<4> for u32 {
    ghost number = { λ n. n };

    fn from_be(bytes: [u8; 4]) -> u32
        ensures value { result ≡ from_bytes bytes }
        ensures bytes { to_bytes 4 result ≡ bytes }
    {
        u32::from_be_bytes(bytes)
    }

    fn to_be(self) -> [u8; 4] {
        u32::to_be_bytes(self)
    }
}

impl Word<8> for u64 {
    ghost number = { λ n. n };

    fn from_be(bytes: [u8; 8]) -> u64
        ensures value { result ≡ from_bytes bytes }
        ensures bytes { to_bytes 8 result ≡ bytes }
    {
        u64::from_be_bytes(bytes)
    }

    fn to_be(self) -> [u8; 8] {
        u64::to_be_bytes(self)
    }
}

// The number that the `N` bytes of `s` from `at` spell. Its bytes are those.
pub fn load<W: Word<N>, const N: usize>(s: &[u8], at: usize) -> W
    requires { at + N ≤ length s.now }
    ensures number { W.number result ≡ from_bytes (take N (drop at s.now)) }
    ensures bytes { to_bytes N (W.number result) ≡ take N (drop at s.now) }
{
    let mut bytes = [0u8; N];
    bytes.copy_from_slice(&s[at..at + N]);
    W::from_be(bytes)
}

// Writes the bytes of `v` over `d` from `at`.
pub fn store<W: Word<N>, const N: usize>(d: &mut [u8], at: usize, v: W)
    requires { at + N ≤ length d.old }
    ensures { d.new ≡ over_at at (to_bytes N (W.number v)) d.old }
{
    d[at..at + N].copy_from_slice(&v.to_be());
}
