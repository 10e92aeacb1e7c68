// The header's fields: for bytes of which there are at least 13.
ghost use Rattle.std.specs.Prelude.{◌≡◌, ◌≤◌, length};
ghost use Rattle.packet.specs.Packet.{header_of};

use crate::Header;

pub fn header(bytes: &[u8]) -> Header
    requires { 13 ≤ length bytes.now }
    ensures { result ≡ header_of 2 bytes.now }
{
    let id = words::read(bytes, 0, 2);
    let seq = words::read(bytes, 2, 2);
    let source = words::read(bytes, 9, 2);
    Header {
        service: bytes[7],
        subservice: bytes[8],
        source_id: source as u16,
        apid: (id % 2048) as u16,
        seq_count: (seq % 16384) as u16,
        total: packet_tests::total(bytes),
    }
}
