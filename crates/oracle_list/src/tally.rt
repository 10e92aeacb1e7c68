// How often each answer was compared, by call and document 01's number, and how many lines differ.
use oracle_counts::{KINDS, Kind};
use text::say;

// How often each number was answered.
type Row = [u64; 21];

#[derive(Drop)]
pub struct Tally {
    // In the order of `KINDS`.
    rows: [Row; 25],
    calls: Row,
    lines: u64,
    different: u64,
}

impl Tally {
    pub fn new() -> Tally {
        Tally {
            rows: [[0; 21]; 25],
            calls: [0; 21],
            lines: 0,
            different: 0,
        }
    }

    // A line of some kind, the number of its answer, and whether all that was answered is what it has.
    pub fn add(&mut self, kind: Option<Kind>, number: u32, same: bool) {
        let number = (number % 21) as usize;
        self.lines = self.lines.wrapping_add(1);
        if let Some(kind) = kind {
            count(&mut self.rows[kind as usize], number);
            if kind != Kind::Dump && kind != Kind::Drain {
                count(&mut self.calls, number);
            }
        }
        if !same {
            self.different = self.different.wrapping_add(1);
        }
    }

    pub fn show(&self, rt: &impl Print) {
        for ((_, name), row) in KINDS.iter().zip(&self.rows) {
            show_row(rt, name, row);
        }
        show_row(rt, "all", &self.calls);
        say!(rt; "\nsequences {}", self.rows[Kind::New as usize][0]);
        say!(rt; "\nlines {}\ndifferent {}\n", self.lines, self.different);
    }
}

fn count(row: &mut Row, number: usize) {
    if number < row.len() {
        row[number] = row[number].wrapping_add(1);
    }
}

// In a line of its own.
fn show_row(rt: &impl Print, name: &str, row: &Row) {
    say!(rt; "\n{name}");
    for (number, times) in row.iter().enumerate().filter(|(_, times)| **times > 0) {
        say!(rt; " {number}:{times}");
    }
}
