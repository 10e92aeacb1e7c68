// Rows of the schedule, and the records of a log, in the original's words.
ghost use Rattle.std.specs.Prelude.{◌^◌, ◌<◌};

use crate::said::Said;
use crate::tables::GROUND;
use std::iter::{once, repeat};

// 2^42, what a row's seconds are written above.
const ZERO: u64 = 4398046511104;

// A bar, and so many rows from a row on; where the table has no more, rows of zeros.
pub fn entries<P: Print>(said: &mut Said<'_, P>, rows: &[u64], first: usize, n: usize) {
    said.say(" |");
    let (rows, _) = rows.as_chunks::<4>();
    for row in rows.iter().skip(first).chain(repeat(&[0; 4])).take(n) {
        let [secs, nanos, id, address] = *row;
        let secs = secs.wrapping_sub(ZERO).cast_signed();
        said.say(format_args!(" {secs},{nanos},{id},{address}"));
    }
}

// How many records, the total, and each record's offset; it lies from there to the next one's, the last to the total. A letter where it is not
// so: O or T where the first offset, or with none the total, is not right behind the offsets, B where a byte behind the total was written.
pub fn released<P: Print>(said: &mut Said<'_, P>, log: &[u8]) {
    let (numbers, _) = log.as_chunks::<4>();
    let [n, total, others @ ..] = numbers else {
        return;
    };
    let offsets = others.get(..number(n)).unwrap_or(others);
    let ends = offsets.iter().skip(1).chain(once(total));
    match offsets {
        [] if number(total) != 8 => said.say('T'),
        [first, ..] if number(first) != 8 + 4 * number(n) => said.say('O'),
        _ => {}
    }
    for (from, end) in offsets.iter().zip(ends) {
        record(said, log.get(number(from)..number(end)));
    }
    if !log.iter().skip(number(total)).all(|b| *b == GROUND) {
        said.say('B');
    }
}

// Flag, request ID, address, packet.
fn record<P: Print>(said: &mut Said<'_, P>, record: Option<&[u8]>) {
    match record.and_then(|record| record.split_first_chunk::<17>()) {
        Some((head, packet)) => {
            let flag = head[0];
            let id = long(&head[1..9]);
            let address = long(&head[9..]);
            said.say(format_args!(" | {flag} {id} {address}"));
            said.part(' ', Some(packet));
        }
        None => said.say(" | OUTSIDE"),
    }
}

// Numbers, high byte first.
fn number(bytes: &[u8; 4]) -> usize
    ensures { result < 2 ^ 32 }
{
    u32::from_be_bytes(*bytes) as usize
}

fn long(bytes: &[u8]) -> u64 {
    bytes.iter().fold(0, |v, b| v << 8 | u64::from(*b))
}
