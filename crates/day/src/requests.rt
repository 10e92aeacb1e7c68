// What a line asks for, by its first word. Its answer stands behind it in the report; a remark is copied.
use crate::shift;
use crate::shift::Shift;
use report::{answers, clock, records};
use text::line::Line;
use text::out;

#[derive(Clone, Copy, PartialEq, Eq)]
enum Request {
    Start,
    Uplink,
    Clock,
    Enable,
    Disable,
    Lose,
    Tick,
}

fn asked_by(line: Line) -> Option<Request> {
    match line.word(0) {
        b"start" => Some(Request::Start),
        b"uplink" => Some(Request::Uplink),
        b"clock" => Some(Request::Clock),
        b"enable" => Some(Request::Enable),
        b"disable" => Some(Request::Disable),
        b"lose" => Some(Request::Lose),
        b"tick" => Some(Request::Tick),
        _ => None,
    }
}

pub fn one(rt: &impl Print, s: &mut Shift, line: Line) {
    if line.word(0) == b"#".as_slice() {
        remark(rt, line.0);
        return;
    }
    let Some(asked) = asked_by(line) else {
        unknown(rt, line.0);
        return;
    };
    let (told, sent) = line.cut(b'=');
    out::say(rt, b"  ");
    out::say(rt, told.0);
    match asked {
        Request::Start => start(rt, s, line),
        Request::Uplink => uplink(rt, s, sent),
        Request::Clock => answers::done(rt, record::set_clock(&mut s.rec, clock::read(line, 1))),
        Request::Enable => answers::done(rt, record::enable(&mut s.rec)),
        Request::Disable => answers::done(rt, record::disable(&mut s.rec)),
        Request::Lose => lose(rt, s, line.number(1)),
        Request::Tick => tick(rt, s, line.index(1)),
    }
}

fn remark(rt: &impl Print, text: &[u8]) {
    if text.len() > 2 {
        out::say(rt, &text[2..]);
    }
    out::say(rt, b"\n");
}

fn unknown(rt: &impl Print, text: &[u8]) {
    out::say(rt, text);
    if !text.is_empty() {
        out::say(rt, b": no such request");
    }
    out::say(rt, b"\n");
}

fn start(rt: &impl Print, s: &mut Shift, line: Line) {
    let setup = shift::setup();
    let t = clock::read(line, 1);
    let m = line.margin(4);
    let a = starting::fresh_start(
        setup,
        &mut s.rec,
        &mut s.store,
        &mut s.lens,
        &mut s.rows,
        t,
        m,
    );
    answers::done(rt, a);
}

// A wrapped telecommand: its bytes stand behind the mark.
fn uplink(rt: &impl Print, s: &mut Shift, sent: Line) {
    let mut room = [0; 128];
    let outer = sent.bytes(1, &mut room);
    let a = insertions_public::insert_wrapped_tc(
        shift::setup(),
        &mut s.rec,
        &mut s.store,
        &mut s.lens,
        &mut s.rows,
        outer,
    );
    answers::inserted(rt, a);
}

// A packet that the store's own deletion takes from under the schedule.
fn lose(rt: &impl Print, s: &mut Shift, addr: u64) {
    let setup = shift::setup();
    answers::deleted(
        rt,
        store_public::delete(setup.store, &mut s.store, &mut s.lens, addr),
    );
}

// At most as many records as the limit says; packets handed out are deleted. Each is told.
fn tick(rt: &impl Print, s: &mut Shift, limit: usize) {
    let mut log = [0; 1024];
    let a = tick_public::tick(
        shift::setup(),
        &mut s.rec,
        &mut s.store,
        &mut s.lens,
        &mut s.rows,
        &mut log,
        limit,
        true,
    );
    answers::ticked(rt, a);
    s.totals = records::all(rt, s.totals, s.rec.clock, &log);
}
