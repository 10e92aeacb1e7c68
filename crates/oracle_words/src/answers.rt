// An answer in the original's words: its number, its values, and behind them what was handed out.
use crate::records;
use crate::said::Said;
use crate::tables::Tables;
use oracle_counts::Kind;

// Whether a line has, from its arrow on, this answer.
pub fn told<P: Print>(mut said: Said<'_, P>, kind: Kind, number: u32, t: &Tables) -> bool {
    said.say(format_args!("=> {number}"));
    values(&mut said, number, &t.answer, kind.count(number, &t.answer));
    match kind {
        Kind::Read => {
            let n = said.line().index(2).min(t.bytes.len());
            said.part(' ', t.bytes.get(..n));
        }
        Kind::Window if number == 0 => {
            records::entries(
                &mut said,
                &t.rows,
                t.answer[0] as usize,
                t.answer[1] as usize,
            );
        }
        Kind::Release if number == 0 => records::released(&mut said, &t.bytes),
        _ => {}
    }
    said.ended()
}

// So many values, and nothing in the other words. Clock and release of a late insertion have a sign.
fn values<P: Print>(said: &mut Said<'_, P>, number: u32, answer: &[u64; 8], n: usize) {
    for (k, word) in answer.iter().enumerate() {
        if k >= n {
            if *word != 0 {
                said.say(format_args!("!{word}"));
            }
        } else if number == 13 && k % 4 == 0 {
            said.say(format_args!(" {}", word.cast_signed()));
        } else {
            said.say(format_args!(" {word}"));
        }
    }
}
