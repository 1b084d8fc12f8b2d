// Packet indices and replay protection (RFC 3711, 3.3.1 and 3.3.2): the index that a packet is sent or received at, and which
// indices were accepted already. Media and control alike. Nothing here reads a packet or checks a tag.
#![tactic(auto)]

pub mod index;
mod row;
pub mod window;
