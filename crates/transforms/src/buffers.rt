// Bytes XORed into a buffer in place.
ghost use Rattle.std.specs.Prelude.{◌≡◌, ◌+◌, ◌≤◌, length};
ghost use Rattle.octets.specs.BigEndian.{to_bytes};
ghost use Rattle.octets.specs.Buffer.{over};
ghost use Rattle.octets.specs.Xor.{xors};
ghost use Rattle.transforms.specs.Steps.{xored_at};

// XORs `s` into the start of `d`. (`octets::xor_over` has its two sources lent beside `d`, which `d` itself can't be.) By index: of what is written
// through an adapter of `iter_mut` a proof knows nothing.
pub(crate) fn xor_in(s: &[u8], d: &mut [u8])
    requires { length s.now ≤ length d.old }
    ensures { d.new ≡ over (xors d.old s.now) d.old }
{
    for i in 0..s.len() {
        d[i] ^= s[i];
    }
}

// XORs the four bytes of `v` into `d` from `at`.
pub(crate) fn xor_word_in(v: u32, at: usize, d: &mut [u8])
    requires { at + 4 ≤ length d.old }
    ensures { d.new ≡ xored_at at 4 (to_bytes 4 v) d.old }
{
    let x: u32 = octets::load(d, at);
    octets::store(d, at, x ^ v);
}
