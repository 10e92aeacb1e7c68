// Writing the release log: a record at its place, and the numbers before the records. All numbers high byte first.
#![tactic(auto)]

ghost use Rattle.std.specs.Prelude.{◌≡◌, ◌+◌, ◌≤◌, length};
ghost use Rattle.std.proofs.lemmas.List.Edits.{sets};
ghost use Rattle.release_log.specs.Log.{record_bytes};
ghost use Rattle.words.specs.Words.{bytes_of};

// Of a log, only these first bytes are used.
pub const MAX_LOG_BYTES: usize = 1048576;

// A number of four bytes: the count, the total or an offset.
pub fn put_number(log: &mut [u8], at: usize, v: usize)
    requires { at + 4 ≤ length log.old }
    ensures { log.new ≡ sets log.old at (bytes_of 4 v) }
{
    words::write(log, at, 4, v as u64);
}

// Bytes. By a loop: for `copy_from_slice` whoever links has to bring `memmove`.
fn put_bytes(log: &mut [u8], at: usize, s: &[u8])
    requires { at + length s.now ≤ length log.old }
    ensures { log.new ≡ sets log.old at s.now }
{
    for i in 0..s.len() {
        log[at + i] = s[i];
    }
}

// A record: flag, request ID, address, packet.
pub fn put_record(log: &mut [u8], at: usize, flag: u8, id: u64, addr: u64, packet: &[u8])
    requires { at + 17 + length packet.now ≤ length log.old }
    ensures { log.new ≡ sets log.old at
        (record_bytes (record { flag = flag; id = id; addr = addr; packet = packet.now })) }
{
    log[at] = flag;
    words::write(log, at + 1, 8, id);
    words::write(log, at + 9, 8, addr);
    put_bytes(log, at + 17, packet);
}
