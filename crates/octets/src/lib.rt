// Numbers in slices of bytes, bytewise XOR, and bytes compared.
#![tactic(auto)]

mod words;

ghost use Rattle.std.specs.Prelude.{◌≡◌, ◌≤◌, length};
ghost use Rattle.octets.specs.Xor.{xors};
ghost use Rattle.octets.specs.Buffer.{over};
ghost use Rattle.octets.specs.Equal.{same as equal};

pub use words::{Word, load, store};

// Writes the XOR of `a` and `b` over the start of `d`. By index: of what is written through an adapter of `iter_mut` a proof knows nothing.
pub fn xor_over(a: &[u8], b: &[u8], d: &mut [u8])
    requires { (length a.now ≤ length b.now) × (length a.now ≤ length d.old) }
    ensures { d.new ≡ over (xors a.now b.now) d.old }
{
    for i in 0..a.len() {
        d[i] = a[i] ^ b[i];
    }
}

// Writes `a` over the start of `d`. No `copy_from_slice`: of a length that is not known it is a call of `memmove`, which a caller in C would have
// to bring along; the loop becomes one of `memcpy`, which is needed anyhow.
pub fn copy_over(a: &[u8], d: &mut [u8])
    requires { length a.now ≤ length d.old }
    ensures { d.new ≡ over a.now d.old }
{
    let len = a.len();
    for i in 0..len {
        d[i] = a[i];
    }
}

// Whether `a` and `b` hold the same bytes. It gathers the differences of all of them and does not stop at the first, so it is no
// `==`: a tag is no place for an early exit. By index: the invariant is of the two fronts, and `zip` has them as one list of pairs.
pub fn same(a: &[u8], b: &[u8]) -> bool
    ensures { result ≡ equal a.now b.now }
{
    if a.len() != b.len() {
        return false;
    }
    let mut d = 0u8;
    for i in 0..a.len() {
        d = d | (a[i] ^ b[i]);
    }
    d == 0
}
