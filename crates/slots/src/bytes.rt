// The leaves that write: each is handed the slot's bytes, or the table's rows, and no others.
ghost use Rattle.std.specs.Prelude.{◌≡◌, ◌≤◌, length, replicate};
ghost use Rattle.layout.specs.Limits.{store_free};
ghost use Rattle.slots.specs.Pools.{over};

use layout::STORE_FREE;

// By a loop: `fill` writes the last byte apart, which takes a third longer for a slot of 72 bytes.
pub fn zero_fill(part: &mut [u8])
    ensures { part.new ≡ replicate (length part.old) 0 }
{
    for byte in part.iter_mut() {
        *byte = 0;
    }
}

pub fn mark_free(part: &mut [u16])
    ensures { part.new ≡ replicate (length part.old) store_free }
{
    part.fill(STORE_FREE);
}

// The packet at the front of the slot's bytes; the bytes after it stay. By a loop: for `copy_from_slice` whoever links has to bring `memmove`.
pub fn copy_in(part: &mut [u8], packet: &[u8])
    requires { length packet.now ≤ length part.old }
    ensures { part.new ≡ over packet.now part.old }
{
    for i in 0..packet.len() {
        part[i] = packet[i];
    }
}
