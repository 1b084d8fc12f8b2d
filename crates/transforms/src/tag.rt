// The authentication tag: twenty bytes of it, of which a packet has the first ones (RFC 3711, 4.2; RFC 4771, 2).
ghost use Rattle.std.specs.Prelude.{◌≡◌, ◌++◌, ◌^◌, ◌<◌, length, take};
ghost use Rattle.octets.specs.BigEndian.{to_bytes};
ghost use Rattle.transforms.specs.Tag.{rollover_counter, media_tag, control_tag};
ghost use Rattle.transforms.specs.Rcc.{carries_counter, integrity_tag};

use crate::{Integrity, SessionKeys};

// Writes RFC 3711's, of the media packet with this index. The rollover counter behind the packet is that of the index, and no other can be given.
// The bound is SHA-1's with room to spare, a clause and no type: it is of slices that callers cut from a packet.
fn mac(keys: SessionKeys, authenticated: &[u8], index: u64, tag: &mut [u8; 20])
    requires { (length authenticated.now < 2 ^ 60) × (index < 2 ^ 48) }
    ensures { tag.new ≡ media_tag 20 keys authenticated.now index }
{
    let counter = (index >> 16) as u32;
    hmac_sha1::hmac(keys.tag, authenticated, &counter.to_be_bytes(), tag);
}

impl Integrity {
    // Whether a packet with this sequence number carries the rollover counter in its tag (RFC 4771, 2).
    pub fn carries(self, number: u16) -> bool
        ensures { result ≡ carries_counter self number }
    {
        let Integrity::Rccm2(rate) = self else {
            return false;
        };
        rate != 0 && number % rate == 0
    }
}

// Puts the rollover counter of the index before the MAC, which stays as far as twenty bytes reach.
fn put_counter(index: u64, tag: &mut [u8; 20])
    requires { index < 2 ^ 48 }
    ensures { tag.new ≡ to_bytes 4 (rollover_counter index) ++ take 16 tag.old }
{
    let mut mac = [0u8; 16];
    mac.copy_from_slice(&tag[..16]);
    octets::store(tag, 0, (index >> 16) as u32);
    tag[4..].copy_from_slice(&mac);
}

// Writes that of the media packet with this index. Whether it carries the rollover counter is a matter of its sequence number.
pub fn media_tag(
    integrity: Integrity,
    keys: SessionKeys,
    authenticated: &[u8],
    index: u64,
    tag: &mut [u8; 20],
)
    requires { (length authenticated.now < 2 ^ 60) × (index < 2 ^ 48) }
    ensures { tag.new ≡ integrity_tag integrity 20 keys authenticated.now index }
{
    mac(keys, authenticated, index, tag);
    let number = (index % 0x1_0000) as u16;
    if integrity.carries(number) {
        put_counter(index, tag);
    }
}

// Writes that of a control packet. It has no rollover counter, and no index.
pub fn control_tag(keys: SessionKeys, authenticated: &[u8], tag: &mut [u8; 20])
    requires { length authenticated.now < 2 ^ 60 }
    ensures { tag.new ≡ control_tag 20 keys authenticated.now }
{
    hmac_sha1::hmac(keys.tag, authenticated, b"", tag);
}
