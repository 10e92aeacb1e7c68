// Input read into a buffer.
ghost use Rattle.std.specs.Prelude.{◌≡◌, ◌≤◌, length};
ghost use Rattle.text.specs.Counts.{IsPrefixLen};

use std::io::Read;

// 65,536 zeros. The `ensures` gives only the length, which lending them asks for.
pub fn large_buffer() -> [u8; 65536]
    ensures { 65536 ≡ length result }
{
    [0; 65536]
}

// Reads until the buffer is full, the input ends or a read fails: the part of the buffer that was filled.
pub fn read<'a>(from: &mut impl Read, room: &'a mut [u8]) -> &'a [u8]
    ensures { length result.now ≤ length room.old }
{
    let n = read_full(from, room);
    &room[..n]
}

// The same, told by its length.
pub fn read_full(from: &mut impl Read, room: &mut [u8]) -> usize
    ensures { IsPrefixLen result room.new }
{
    let mut done = 0;
    while done < room.len() {
        let Ok(n @ 1..) = from.read(&mut room[done..]) else {
            break;
        };
        done += n;
    }
    done
}
