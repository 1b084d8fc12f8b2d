// Room for a protected packet.
pub const ROOM: usize = 30;

// Bytes on their way through the network: the first `len` of the room, since there is no heap.
#[derive(Clone, Copy)]
pub struct Datagram {
    pub room: [u8; ROOM],
    pub len: usize,
}

impl Datagram {
    pub fn empty() -> Self {
        Datagram {
            room: [0; ROOM],
            len: 0,
        }
    }

    pub fn bytes(&self) -> &[u8] {
        self.room.get(..self.len).unwrap_or(&self.room)
    }
}
