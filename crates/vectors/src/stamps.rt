// Time stamps at their boundaries (document 01, module 3).
use crate::times;
use text::line::Line;
use text::out;

// The time of the stamp from word 1 on, and how many bytes it has.
pub fn stamp(rt: &impl Print, line: Line) {
    let mut room = [0; 64];
    match stamp::read(line.bytes(1, &mut room)) {
        Some(s) => {
            times::instant(rt, b" ", s.time);
            out::number(rt, b", ", s.len as u64);
            out::say(rt, b" bytes");
        }
        None => out::say(rt, b" refused"),
    }
}

// Of all 256 first bytes, those before which a stamp is read.
pub fn every_first_byte(rt: &impl Print) {
    for form in 0..=255u8 {
        if stamp::read(&[form, 0, 0, 0, 0, 0, 0, 0]).is_some() {
            out::say(rt, b" ");
            out::byte(rt, form);
        }
    }
}
