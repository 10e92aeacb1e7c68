// Numbers of several bytes, high byte first (CCSDS 133.0-B, ECSS-E-ST-70-41C): reading and writing, at every width up to eight bytes.
#![tactic(auto)]

ghost use Rattle.std.specs.Prelude.{◌≡◌, ◌+◌, ◌≤◌, length};
ghost use Rattle.std.proofs.lemmas.List.Edits.{sets};
ghost use Rattle.words.specs.Words.{Reads, bytes_of};

// The number that `width` bytes from `at` on are.
pub fn read(bytes: &[u8], at: usize, width: usize) -> u64
    requires { (at + width ≤ length bytes.now) × (width ≤ 8) }
    ensures { Reads width at bytes.now result }
{
    let mut v: u64 = 0;
    for b in &bytes[at..at + width] {
        v = v * 256 + u64::from(*b);
    }
    v
}

// The `width` low bytes of `v`, from `at` on; all other bytes stay. One loop for every width.
pub fn write(dst: &mut [u8], at: usize, width: usize, v: u64)
    requires { at + width ≤ length dst.old }
    ensures { dst.new ≡ sets dst.old at (bytes_of width v) }
{
    let mut x = v;
    for k in (0..width).rev() {
        dst[at + k] = (x % 256) as u8;
        x /= 256;
    }
}
