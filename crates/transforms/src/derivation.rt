// Session keys from master key and master salt (RFC 3711, 4.3), with a key derivation rate of zero.
ghost use Rattle.std.specs.Prelude.{◌≡◌, List, ℕ, ◌+◌, ◌^◌, ◌≤◌, length};
ghost use Rattle.aes.specs.KeyExpansion.{key_expansion};
ghost use Rattle.transforms.specs.KeyDerivation.{derived, session_keys};

use crate::SessionKeys;
use crate::counter_mode::Keystream;

impl SessionKeys {
    // The labels of the cipher key, of media packets (4.3.1) and of control packets (4.3.2). A label is the document's byte, and no enum: it goes into
    // the counter as it is, and the next two follow it by one.
    pub const MEDIA_LABEL: u8 = 0;

    pub const CONTROL_LABEL: u8 = 3;

    // Bytes of each session key (8.2): cipher key, authentication key, salt.
    pub const CIPHER_KEY_LEN: usize = 16;

    pub const TAG_KEY_LEN: usize = 20;

    pub const SALT_LEN: usize = 14;

    // The session keys whose first label is `label`: those of cipher key, authentication key and salt follow each other.
    pub fn derive(label: u8, key: [u8; 16], salt: [u8; 14]) -> SessionKeys
        requires { label ≤ 253 }
        ensures { result ≡ session_keys label key salt }
    {
        let w = aes::expand_128(key);
        let mut cipher_key = [0u8; SessionKeys::CIPHER_KEY_LEN];
        let mut tag_key = [0u8; SessionKeys::TAG_KEY_LEN];
        let mut session_salt = [0u8; SessionKeys::SALT_LEN];
        derived(&w, salt, label, &mut cipher_key);
        derived(&w, salt, label + 1, &mut tag_key);
        derived(&w, salt, label + 2, &mut session_salt);
        let round = aes::expand_128(cipher_key);
        let tag = hmac_sha1::hmac_key(&tag_key);
        SessionKeys {
            round,
            tag,
            salt: session_salt,
        }
    }
}

// Fills `out` with what a label gives under the master key, whose round keys are `w` (4.3.3). Label and r = 0 stand where SSRC and index
// stand in a packet's initial counter.
pub fn derived(w: &[u32; 44], salt: [u8; 14], label: u8, out: &mut [u8])
    requires { length out.old ≤ 2 ^ 16 }
    ensures { (key : List ℕ) → w.now ≡ key_expansion 4 key → out.new ≡ derived key salt label (length out.old) }
{
    let keystream = Keystream::new(w, salt, u32::from(label), 0);
    out.fill(0);
    keystream.xor_in(0, out);
}
