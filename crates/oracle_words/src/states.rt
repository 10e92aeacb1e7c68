// The whole state in the original's words.
use crate::said::Said;
use crate::tables::Tables;
use crate::{records, slots};

// Whether a line has, from its arrow on, what is in the state: clock, enabled, entries, and behind a bar the packets in the store.
pub fn dump<P: Print>(mut said: Said<'_, P>, t: &Tables) -> bool {
    let [count, clock, nanos, _, _, enabled] = t.record;
    let clock = clock.cast_signed();
    said.say(format_args!("=> {clock} {nanos} {enabled}"));
    records::entries(&mut said, &t.rows, 0, count as usize);
    said.say(" |");
    slots::each(t, |slot| {
        if !slot.free {
            said.say(format_args!(" {}", slot.address));
            said.part(':', slot.bytes);
        }
    });
    said.ended()
}

// Whether it has the slots that are free, with their bytes where these are not zeros.
pub fn drain<P: Print>(mut said: Said<'_, P>, t: &Tables) -> bool {
    said.say("=>");
    let place = said.place();
    slots::each(t, |slot| {
        if slot.free {
            said.say(format_args!(" {}", slot.address));
            match slot.bytes {
                Some(bytes) if bytes.iter().all(|b| *b == 0) => said.say(":0"),
                bytes => said.part(':', bytes),
            }
        }
    });
    if said.place() == place {
        said.say(" NONE");
    }
    said.ended()
}

// Of any other word it is told that it is no call.
pub fn unknown<P: Print>(mut said: Said<'_, P>) -> bool {
    said.say("=> no call");
    said.ended()
}
