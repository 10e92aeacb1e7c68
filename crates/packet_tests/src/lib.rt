// Module 2's tests (document 01; CCSDS 133.0-B, ECSS-E-ST-70-41C), one function each: for bytes of which there are at least 13.
#![tactic(auto)]

ghost use Rattle.std.specs.Prelude.{◌≡◌, true, ◌≤◌, length};
ghost use Rattle.packet_tests.specs.Tests.{check_bytes, header_bits, total_in_bounds, total_of, version_nibble};

// The length field and 7.
pub fn total(bytes: &[u8]) -> usize
    requires { 13 ≤ length bytes.now }
    ensures { (result ≡ total_of bytes.now) × (result ≤ 65542) }
{
    (words::read(bytes, 4, 2) as usize) + 7
}

pub fn total_in_bounds(bytes: &[u8]) -> bool
    requires { 13 ≤ length bytes.now }
    ensures { result ≡ total_in_bounds 2 bytes.now }
{
    let t = total(bytes);
    if t < 13 {
        return false;
    }
    t <= bytes.len()
}

pub fn header_bits(bytes: &[u8]) -> bool
    requires { 13 ≤ length bytes.now }
    ensures { result ≡ header_bits bytes.now }
{
    words::read(bytes, 0, 2) / 2048 == 3
}

pub fn version_nibble(bytes: &[u8]) -> bool
    requires { 13 ≤ length bytes.now }
    ensures { result ≡ version_nibble bytes.now }
{
    bytes[6] / 16 == 2
}

pub fn check_bytes(bytes: &[u8]) -> bool
    requires { (13 ≤ length bytes.now) × (total_in_bounds 2 bytes.now ≡ true) }
    ensures { result ≡ check_bytes bytes.now }
{
    let end = total(bytes) - 2;
    let code = check_code::of(&bytes[..end]) as u64;
    words::read(bytes, end, 2) == code
}
