// The store's slots in the order of their addresses.
use crate::tables::Tables;

const FREE: u16 = 65535;

#[derive(Clone, Copy)]
pub struct Slot<'a> {
    pub address: u64,
    pub free: bool,
    // The packet, or all of a free slot; nothing where it lies outside the store.
    pub bytes: Option<&'a [u8]>,
}

pub fn each<F: FnMut(Slot<'_>)>(t: &Tables, mut see: F)
    requires { F.IsAlwaysCallable see }
{
    let mut lens = t.lens.iter();
    let mut from: usize = 0;
    let mut base: u64 = 0;
    for [slots, size] in t.setup.pools() {
        let size = *size as usize;
        for k in 0..*slots % 65536 {
            let len = lens.next().copied().unwrap_or(FREE);
            let free = len == FREE;
            let n = if free { size } else { usize::from(len) };
            see(Slot {
                address: base.wrapping_add(k),
                free,
                bytes: t.store.get(from..from.saturating_add(n)),
            });
            from = from.wrapping_add(size);
        }
        base = base.wrapping_add(65536);
    }
}
