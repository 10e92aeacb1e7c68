// The store address: how subpool and slot are put into one number, and which of its bits are read.
#![tactic(auto)]

ghost use Rattle.std.specs.Prelude.{◌≡◌, eqb};
ghost use Rattle.address.specs.Address.{address_of, invalid_addr, pool_of, slot_of};

#[derive(Clone, Copy)]
pub struct StaticPoolAddr {
    pub pool_idx: u16,
    pub packet_idx: u16,
}

impl StaticPoolAddr {
    // What a caller keeps where there is no address: no setup has the subpool that it names.
    pub const INVALID_ADDR: u64 = 0xFFFF_FFFF;

    pub fn is_invalid(addr: u64) -> bool
        ensures { result ≡ eqb addr invalid_addr }
    {
        addr == StaticPoolAddr::INVALID_ADDR
    }

    pub fn decode(addr: u64) -> StaticPoolAddr
        ensures { (result.pool_idx ≡ pool_of addr) × (result.packet_idx ≡ slot_of addr) }
    {
        StaticPoolAddr {
            pool_idx: (addr / 65536 % 256) as u16,
            packet_idx: (addr % 256) as u16,
        }
    }

    pub fn encode(self) -> u64
        ensures { result ≡ address_of self.pool_idx self.packet_idx }
    {
        (self.pool_idx as u64) * 65536 + (self.packet_idx as u64)
    }
}
