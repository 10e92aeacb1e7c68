// What a call is given: the setup, and how much of the store and of the lengths is lent.
use crate::command::Command;
use layout::Setup;
use text::line::Line;

#[derive(Clone, Copy)]
pub struct Given {
    pub setup: Setup,
    pub room: usize,
    pub lens: usize,
}

// What a call is lent of it.
#[derive(Drop)]
pub struct Lent<'a> {
    pub setup: Setup,
    pub store: &'a mut [u8],
    pub lens: &'a mut [u16],
    pub buf: &'a mut [u8],
}

impl Given {
    // Nothing is set up, and nothing lent.
    pub fn none() -> Given {
        Given {
            setup: setup(Line(b"")),
            room: 0,
            lens: 0,
        }
    }

    // After a line that sets up or lends; any other changes neither.
    pub fn by(self, command: Command, line: Line) -> Given {
        match command {
            Command::Setup => Given {
                setup: setup(line),
                ..self
            },
            Command::Lend => Given {
                room: line.index(1),
                lens: line.index(2),
                ..self
            },
            _ => self,
        }
    }
}

// Subpools, whether it spills, then size and slots of each.
fn setup(line: Line) -> Setup {
    let mut setup = Setup {
        pools: line.index(1),
        sizes: [0; 8],
        slots: [0; 8],
        spill: line.number(2) == 1,
    };
    for k in 0..8 {
        setup.sizes[k] = line.short(3 + 2 * k);
        setup.slots[k] = line.short(4 + 2 * k);
    }
    setup
}
