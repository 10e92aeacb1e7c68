// The original's answers, replayed: each line's request goes to the proved library, and its answer and all that it hands out is compared with theirs.
#![tactic(auto)]

mod tally;

ghost use Rattle.std.specs.Prelude.{◌≡◌, length};

use oracle_counts::Kind;
use oracle_words::said::Said;
use oracle_words::tables::Tables;
use oracle_words::{answers, states};
use tally::Tally;
use text::line::{Line, Lines};
use text::{input, say};

// The longest list, and more.
const ROOM: usize = 2097152;

fn main(rt: HostRuntime) {
    let mut room = room();
    let text = input::read(&mut rt.stdin(), &mut room);
    if text.len() == ROOM {
        say!(&rt; "the list is longer than there is room for\n");
    }
    let mut tables = Tables::new();
    let mut tally = Tally::new();
    for line in Lines(text) {
        let kind = Kind::of(line.word(0));
        let (number, same) = compared(&rt, kind, line, &mut tables);
        tally.add(kind, number, same);
    }
    tally.show(&rt);
}

// Room for the list, on the stack: what is there before the program begins cannot be refused. The `ensures` gives only the length, which lending
// it asks for.
fn room() -> [u8; ROOM]
    ensures { 2097152 ≡ length result }
{
    [0; ROOM]
}

// The number of the answer to a line's request, and whether all that was answered is what the line has from its arrow on.
fn compared(rt: &impl Print, kind: Option<Kind>, line: Line<'_>, t: &mut Tables) -> (u32, bool) {
    let (request, _) = line.cut(b'=');
    let said = Said::new(rt, line, request.0.len());
    t.await_answer();
    let number = match kind {
        None => return (0, states::unknown(said)),
        Some(Kind::Dump) => return (0, states::dump(said, t)),
        Some(Kind::Drain) => return (0, states::drain(said, t)),
        Some(Kind::New) => oracle_given::start(request, t),
        Some(Kind::Clock) => oracle_given::clock(request, t),
        Some(Kind::Enable) => oracle_given::enable(t),
        Some(Kind::Disable) => oracle_given::disable(t),
        Some(Kind::Num) => oracle_given::count(t),
        // The original's two forms of this insertion are one call here, and so are those of the next.
        Some(Kind::Wrapped | Kind::WrappedL) => oracle_given::wrapped(request, t),
        Some(Kind::Unwrapped | Kind::UnwrappedT) => oracle_given::unwrapped(request, t),
        Some(Kind::Stored) => oracle_given::stored(request, t),
        Some(Kind::Window) => oracle_taken::window(request, t),
        Some(Kind::DelWin | Kind::DelAll) => oracle_taken::delete_window(request, t),
        Some(Kind::Reset) => oracle_taken::reset(t),
        Some(Kind::DelId) => oracle_taken::delete_by_id_keep(request, t),
        Some(Kind::DelIdP) => oracle_taken::delete_by_id(request, t),
        Some(Kind::Release) => oracle_taken::release(request, t),
        Some(Kind::Add) => oracle_store::add(request, t),
        Some(Kind::Read) => oracle_store::read(request, t),
        Some(Kind::Modify) => oracle_store::modify(request, t),
        Some(Kind::Delete) => oracle_store::delete(request, t),
        Some(Kind::Has) => oracle_store::has(request, t),
        Some(Kind::Len) => oracle_store::len(request, t),
    };
    let same = kind.is_none_or(|kind| answers::told(said, kind, number, t));
    (number, same)
}
