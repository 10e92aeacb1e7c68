// The worked cases of the static store, through its public calls: each line of the input is done, and written out with what came back.
#![tactic(auto)]

mod calls;
mod command;
mod given;
mod shows;

use command::Command;
use given::{Given, Lent};
use text::line::{Line, Lines};
use text::{input, out};

fn main(rt: HostRuntime) {
    let mut text = input::large_buffer();
    let n = input::read_full(&mut rt.stdin(), &mut text);
    all(&rt, &text[..n]);
}

// Room for the largest store and the largest table.
fn all(rt: &impl Print, text: &[u8]) {
    let mut store = [0u8; 1048576];
    let mut lens = [65535u16; 2048];
    let mut buf = [0u8; 64];
    let mut given = Given::none();
    for line in Lines(text) {
        out::say(rt, line.0);
        if let Some(command) = Command::of(line) {
            given = given.by(command, line);
            let on = Lent {
                setup: given.setup,
                store: &mut store[..given.room.min(1048576)],
                lens: &mut lens[..given.lens.min(2048)],
                buf: &mut buf,
            };
            one(rt, on, command, line);
        }
        out::say(rt, b"\n");
    }
}

fn one(rt: &impl Print, on: Lent, command: Command, line: Line) {
    let Lent {
        setup,
        store,
        lens,
        buf,
    } = on;
    match command {
        Command::Setup | Command::Lend => {}
        Command::Start => calls::start(rt, setup, store, lens),
        Command::Add => calls::add(rt, setup, store, lens, line),
        Command::Fill => calls::fill(setup, store, lens, line),
        Command::Delete => calls::delete(rt, setup, store, lens, line.number(1)),
        Command::Modify => calls::modify(rt, setup, store, lens, line),
        Command::ModifyWith => calls::modify_with(rt, setup, store, lens, line),
        Command::Bytes => {
            store.fill(line.byte(1));
            buf.fill(line.byte(3));
        }
        Command::Lengths => lens.fill(line.short(1)),
        Command::Length => calls::set_length(lens, line.index(1), line.short(3)),
        Command::Read => shows::read(rt, setup, store, lens, buf, line),
        Command::Judge => shows::judge(rt, setup, store, lens),
        Command::Address => shows::about(rt, setup, store, lens, shows::addr(line)),
        Command::Good => shows::good(rt, setup),
        Command::Subpool => shows::encode(rt, line.short(1), line.short(3)),
        Command::Decode => shows::decode(rt, shows::addr(line)),
        Command::Show => shows::show(rt, store, lens, buf, line),
    }
}
