// Telecommand packets (document 01, module 2; CCSDS 133.0-B, ECSS-E-ST-70-41C): which bytes are one, its header, and its user data.
#![tactic(auto)]

ghost use Rattle.std.specs.Prelude.{◌≡◌};
ghost use Rattle.packet.specs.Packet.{HandsBack, id_of, id_word, read_of};

mod fields;

// The header's fields, and the whole packet's length.
#[derive(Clone, Copy)]
pub struct Header {
    pub service: u8,
    pub subservice: u8,
    pub source_id: u16,
    pub apid: u16,
    pub seq_count: u16,
    pub total: usize,
}

// The first of module 2's tests that fails.
#[derive(Clone, Copy)]
pub enum Fault {
    Length,
    Total,
    HeaderBits,
    VersionNibble,
    CheckBytes,
}

// What the schedule names a command by.
#[derive(Clone, Copy)]
pub struct RequestId {
    pub source_id: u16,
    pub apid: u16,
    pub seq_count: u16,
}

impl RequestId {
    pub fn as_u64(self) -> u64
        ensures { result ≡ id_word self }
    {
        (self.source_id as u64) * 4294967296 + (self.apid as u64) * 65536 + (self.seq_count as u64)
    }
}

impl Header {
    pub fn request_id(self) -> RequestId
        ensures { result ≡ id_of self }
    {
        RequestId {
            source_id: self.source_id,
            apid: self.apid,
            seq_count: self.seq_count,
        }
    }

    // The user data of the bytes that this header was read from: for a caller that has read them, and needs no second check code.
    pub fn user_data(self, bytes: &[u8]) -> &[u8]
        requires { read_of 2 bytes.now ≡ Ok self }
        ensures { HandsBack 2 bytes.now bytes.entry.ref_ptr result.now result.ref_ptr }
    {
        let end = self.total - 2;
        &bytes[11..end]
    }
}

// Any bytes at all get an answer. Bytes after the packet's total are allowed.
pub fn read(bytes: &[u8]) -> Result<Header, Fault>
    ensures { result ≡ read_of 2 bytes.now }
{
    if bytes.len() < 13 {
        return Err(Fault::Length);
    }
    if !packet_tests::total_in_bounds(bytes) {
        return Err(Fault::Total);
    }
    if !packet_tests::header_bits(bytes) {
        return Err(Fault::HeaderBits);
    }
    if !packet_tests::version_nibble(bytes) {
        return Err(Fault::VersionNibble);
    }
    if !packet_tests::check_bytes(bytes) {
        return Err(Fault::CheckBytes);
    }
    Ok(fields::header(bytes))
}

// The user data as a part of the packet, uncopied: empty where the packet is unreadable, which `read` says.
pub fn user_data(bytes: &[u8]) -> &[u8]
    ensures { HandsBack 2 bytes.now bytes.entry.ref_ptr result.now result.ref_ptr }
{
    match read(bytes) {
        Ok(h) => h.user_data(bytes),
        Err(_) => &bytes[..0],
    }
}
