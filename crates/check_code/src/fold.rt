// Bytes of a packet folded into those that follow. Shifts by 64 bits come to what a few exclusive-ors come to, as the polynomial has four terms.
ghost use Rattle.std.specs.Prelude.{◌≡◌};
ghost use Rattle.check_code.specs.Inside.{feed4, feed8};

// Eight bytes that have the code of w and eight zeros after it.
pub fn whole(w: u64) -> u64
    ensures { feed8 0 result ≡ feed8 (feed8 0 w) 0 }
{
    let t = w ^ (w >> 16);
    let q = t ^ (t >> 32) ^ (w >> 44);
    q ^ (q << 20) ^ (q << 48)
}

// The same for four bytes.
pub fn half(w: u32) -> u32
    ensures { feed4 0 result ≡ feed4 (feed4 0 w) 0 }
{
    let t = w ^ (w >> 8);
    let q = t ^ (t >> 16) ^ (w >> 22);
    q ^ (q << 10) ^ (q << 24)
}
