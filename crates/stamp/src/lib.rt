// Time stamps (document 01, module 3; CCSDS 301.0-B, day segmented code): the first byte says the width of the day; day from 1958, millisecond.
#![tactic(auto)]

ghost use Rattle.std.specs.Prelude.{◌≡◌, ◌<◌, ◌≤◌, T};
ghost use Rattle.time.specs.Time.{secs_in_range};
ghost use Rattle.stamp.specs.Stamp.{Reads, ReadsWidth, secs_of};

use time::UnixTime;

// A stamp that was read: its time, and how many bytes it has.
#[derive(Clone, Copy)]
pub struct Stamp {
    pub time: UnixTime,
    pub len: usize,
}

// The stamp at the front of any bytes, where there is one. A time that was read is in range.
pub fn read(bytes: &[u8]) -> Option<Stamp>
    ensures { Reads bytes.now result }
{
    if bytes.len() == 0 {
        return None;
    }
    let form = bytes[0];
    if form == 0x40 {
        return read_width(bytes, 2);
    }
    if form == 0x44 {
        return read_width(bytes, 3);
    }
    None
}

// A stamp whose day has `width` bytes: the one reader of both forms.
fn read_width(bytes: &[u8], width: usize) -> Option<Stamp>
    requires { width ≤ 3 }
    ensures { ReadsWidth width bytes.now result }
{
    let n = 5 + width;
    if bytes.len() < n {
        return None;
    }
    let day = words::read(bytes, 1, width);
    let ms = words::read(bytes, 1 + width, 4);
    if 86399999 < ms {
        return None;
    }
    let t = UnixTime {
        secs: secs(day, ms),
        nanos: (ms % 1000 * 1000000) as u32,
    };
    Some(Stamp { time: t, len: n })
}

// The seconds from 1970 of a day from 1958 and its millisecond.
fn secs(day: u64, ms: u64) -> i64
    requires { (day < 16777216) × (ms ≤ 86399999) }
    ensures { (result ≡ secs_of day ms) × T (secs_in_range result) }
{
    ((day as i64) - 4383) * 86400 + ((ms / 1000) as i64)
}
