// A release log read record by record: how many it counts, and record i, where it lies inside the bytes given.
#![tactic(auto)]

ghost use Rattle.std.specs.Prelude.{◌≡◌, ◌*◌, ◌+◌, ◌<◌, ◌≤◌, length};
ghost use Rattle.release_log.specs.Reading.{count_of, end_of};
ghost use Rattle.log_reader.specs.Finding.{between as betweenIn, counted, found_in};

// A record: flag, request ID, address as inserted, and where in the log its packet's bytes are.
#[derive(Clone, Copy)]
pub struct Item {
    pub flag: u8,
    pub id: u64,
    pub addr: u64,
    pub from: usize,
    pub to: usize,
}

// How many records a log counts; none where it is too short for its numbers.
#[tactic(auto, unfolding(crate::specs::Finding::counted))]
pub fn count(log: &[u8]) -> usize
    ensures { result ≡ counted log.now }
{
    if log.len() < 8 {
        return 0;
    }
    let n = words::read(log, 0, 4) as usize;
    if log.len() < 8 + 4 * n { 0 } else { n }
}

// Record i ends where the next one starts, and the last at the total.
fn end_of(log: &[u8], n: usize, i: usize) -> usize
    requires { (i < n) × (n ≡ count_of log.now) × (8 + 4 * n ≤ length log.now) }
    ensures { result ≡ end_of log.now i }
{
    if i + 1 < n {
        return words::read(log, 8 + 4 * (i + 1), 4) as usize;
    }
    words::read(log, 4, 4) as usize
}

fn between(log: &[u8], at: usize, end: usize) -> Option<Item>
    requires { at < 4294967296 }
    ensures { result ≡ betweenIn log.now at end }
{
    if log.len() < end {
        return None;
    }
    if end < at + 17 {
        return None;
    }
    Some(Item {
        flag: log[at],
        id: words::read(log, at + 1, 8),
        addr: words::read(log, at + 9, 8),
        from: at + 17,
        to: end,
    })
}

pub fn record_at(log: &[u8], i: usize) -> Option<Item>
    ensures { result ≡ found_in log.now i }
{
    let n = count(log);
    if i >= n {
        return None;
    }
    let at = words::read(log, 8 + 4 * i, 4) as usize;
    between(log, at, end_of(log, n, i))
}
