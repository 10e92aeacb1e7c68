// The check code of a packet (document 01, module 1): CRC-16, polynomial 0x1021, start 0xFFFF, by a table of 256 numbers. Eight bytes at a
// time are folded into the eight that follow, which leaves eight bytes and a rest for the table.
#![tactic(auto)]

ghost use Rattle.std.specs.Prelude.{◌≡◌};
ghost use Rattle.check_code.specs.CheckCode.{check_code, feed, feed_all};
ghost use Rattle.check_code.specs.Inside.{feed8};

mod fold;
mod table;

// The check code of all the bytes.
pub fn of(bytes: &[u8]) -> u16
    ensures { result ≡ check_code bytes.now }
{
    let Some((first, behind)) = bytes.split_first_chunk::<8>() else {
        return rest(0xFFFF, bytes);
    };
    let mut word = 0xFFFF000000000000 ^ u64::from_be_bytes(*first);
    let mut left = behind;
    while let Some((next, behind)) = left.split_first_chunk::<8>() {
        word = fold::whole(word) ^ u64::from_be_bytes(*next);
        left = behind;
    }
    rest(of_word(word), left)
}

// The code after the bytes.
fn rest(start: u16, bytes: &[u8]) -> u16
    ensures { result ≡ feed_all start bytes.now }
{
    bytes.iter().fold(start, |code, b| step(code, *b))
}

// The code of the eight bytes of a word, from 0.
fn of_word(word: u64) -> u16
    ensures { result ≡ feed8 0 word }
{
    let four = fold::half((word >> 32) as u32) ^ (word % (1 << 32)) as u32;
    let [a, b, c, d] = four.to_be_bytes();
    step(step(step(step(0, a), b), c), d)
}

// One byte more, by the table.
fn step(code: u16, b: u8) -> u16
    ensures { result ≡ feed code b }
{
    (code << 8) ^ table::entry((code >> 8) as u8 ^ b)
}
