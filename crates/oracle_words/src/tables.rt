// What is lent to the library.
ghost use Rattle.std.specs.Prelude.{◌≤◌};

use text::line::Line;

// What a buffer holds before a call.
pub const GROUND: u8 = 238;

// Room for every setup of the list. The tables are never cleared: each sequence's fresh start finds what the one before left.
#[derive(Drop)]
pub struct Tables {
    pub setup: Setup,
    pub record: [u64; 6],
    pub store: [u8; 8192],
    pub lens: [u16; 300],
    pub rows: [u64; 64],
    // The packet that a request has, and behind the call what was handed out.
    pub bytes: [u8; 8192],
    pub answer: [u64; 8],
}

impl Tables {
    pub fn new() -> Tables {
        Tables {
            setup: Setup { words: [0; 19] },
            record: [77; 6],
            store: [238; 8192],
            lens: [60000; 300],
            rows: [77; 64],
            bytes: [GROUND; 8192],
            answer: [0; 8],
        }
    }

    // What is handed out is written over a ground of its own.
    pub fn await_answer(&mut self) {
        self.bytes.fill(GROUND);
        self.answer.fill(0);
    }
}

// Subpools, spilling, entries, and slots and size of each subpool.
#[derive(Drop)]
pub struct Setup {
    words: [u64; 19],
}

impl Setup {
    // A new sequence has its own: slots and sizes stand in the line from word 7 on.
    pub fn read(request: Line<'_>) -> Setup {
        let mut words = [0; 19];
        for (k, word) in words.iter_mut().enumerate() {
            *word = match k {
                0 => pools(request),
                1 | 2 => request.number(k),
                _ => request.number(k + 4),
            };
        }
        Setup { words }
    }

    // No fewer and no more words than its subpools need.
    pub fn lent(&self) -> &[u64] {
        &self.words[..3 + 2 * self.number()]
    }

    // Slots and size of each subpool.
    pub fn pools(&self) -> &[[u64; 2]] {
        self.words[3..3 + 2 * self.number()].as_chunks::<2>().0
    }

    // How many subpools.
    fn number(&self) -> usize
        ensures { result ≤ 8 }
    {
        self.words[0].min(8) as usize
    }
}

// How many subpools a line has.
fn pools(request: Line<'_>) -> u64 {
    (0..8u64)
        .find(|k| request.rest(8 + 2 * *k as usize).is_empty())
        .unwrap_or(8)
}
