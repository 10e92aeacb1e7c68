// What the programs of cases lend to a call of the scheduler: damaged by hand, and compared with a copy.
#![tactic(auto)]

use record::Record;
use schedule::Setup;
use text::say;

// A setup, a record and tables, and how much of the tables a call is lent.
#[derive(Clone, Copy)]
pub struct Bench<const S: usize, const L: usize, const R: usize> {
    pub setup: Setup,
    pub rec: Record,
    pub part: Part,
    pub store: [u8; S],
    pub lens: [u16; L],
    pub rows: [u64; R],
}

// How many bytes, lengths and words of rows; all that there are where it says more.
#[derive(Clone, Copy)]
pub struct Part {
    pub room: usize,
    pub lens: usize,
    pub rows: usize,
}

// As a call is given it.
pub struct Lent<'a> {
    pub setup: Setup,
    pub rec: &'a mut Record,
    pub store: &'a mut [u8],
    pub lens: &'a mut [u16],
    pub rows: &'a mut [u64],
}

impl<const S: usize, const L: usize, const R: usize> Bench<S, L, R> {
    pub fn lend(&mut self) -> Lent<'_> {
        let part = self.part;
        Lent {
            setup: self.setup,
            rec: &mut self.rec,
            store: &mut self.store[..part.room.min(S)],
            lens: &mut self.lens[..part.lens.min(L)],
            rows: &mut self.rows[..part.rows.min(R)],
        }
    }

    // The names of the tables that are not as in a copy are written out; whether there are any. What was not lent is compared too.
    pub fn say_changed(&self, rt: &impl Print, old: &Bench<S, L, R>) -> bool {
        let tables = [
            ("store", self.store != old.store),
            ("lengths", self.lens != old.lens),
            ("rows", self.rows != old.rows),
        ];
        for (name, _) in tables.iter().filter(|t| t.1) {
            say!(rt; " {name}");
        }
        tables.iter().any(|t| t.1)
    }
}

// An item of a table becomes another; one behind the last is no item.
pub fn set<T: Copy>(table: &mut [T], i: usize, x: T) {
    if i < table.len() {
        table[i] = x;
    }
}
