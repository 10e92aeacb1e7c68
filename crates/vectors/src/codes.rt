// Check codes (document 01, module 1), and numbers of several bytes at every width that packets, stamps and logs have.
ghost use Rattle.std.specs.Prelude.{◌+◌, ◌≤◌, length};

use text::line::Line;
use text::out;

// The code of the bytes from word 3 on; or the codes of sixteen bytes from that one on, each alone.
pub fn code(rt: &impl Print, line: Line) {
    let mut room = [0; 64];
    let bytes = line.bytes(3, &mut room);
    if line.word(1) == b"codes".as_slice() {
        row(rt, bytes.first().copied().unwrap_or(0));
        return;
    }
    out::say(rt, b" ");
    out::short(rt, check_code::of(bytes));
}

fn row(rt: &impl Print, from: u8) {
    for i in 0..16u8 {
        out::say(rt, b" ");
        out::short(rt, check_code::of(&[from.wrapping_add(i)]));
    }
}

// Number, place, width: the number written among ten bytes 5A, all ten afterwards, and the number read back.
pub fn number(rt: &impl Print, line: Line) {
    let width = line.index(5).min(8);
    let at = line.index(3).min(10 - width);
    let mut bytes = [0x5A; 10];
    words::write(&mut bytes, at, width, line.number(1));
    out::say(rt, b" ");
    out::bytes(rt, &bytes);
    out::number(rt, b", read back ", words::read(&bytes, at, width));
}
