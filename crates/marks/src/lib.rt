// Packets marked as handed out, in the length table: a marked one counts as deleted before anything is, and one pass takes all marks off
// again. Whoever counts what will be handed out uses these functions alone: what a mark is, no other crate knows.
#![tactic(auto)]

ghost use Rattle.std.specs.Prelude.{◌≡◌, true};
ghost use Rattle.layout.specs.Judge.{setup_ok};
ghost use Rattle.marks.specs.Promise.{Deletes, Marking, Place, Places, Restores, Tells};
ghost use Rattle.marks.specs.Inside.{bare};

use layout::{STORE_FREE, Setup};

// What a mark adds to a length. Lengths are at most 4,096, so a marked one is at least this and no other is; it is at most 12,288, so none
// is taken for the mark of a free slot, 65,535.
const MARK: u16 = 8192;

// How many places the length table has, one for each slot of the setup.
#[tactic(auto, using(layout::proofs::Layouts::setup_few))]
pub fn places(setup: Setup) -> usize
    requires { setup_ok setup ≡ true }
    ensures { Places setup result }
{
    layout::rows(setup)
}

// The place of the slot that an address names; the number of all places where the setup has none. A caller looks it up once, for the two
// functions below.
#[tactic(auto, using(layout::proofs::Layouts::setup_few))]
pub fn place_of(setup: Setup, addr: u64) -> usize
    requires { setup_ok setup ≡ true }
    ensures { Place setup addr result }
{
    layout::row_of(setup, addr)
}

// The bytes of the packet that a place still stands for: none where the setup has no such slot, it is free, or its packet is marked.
pub fn bytes_left(setup: Setup, lens: &[u16], all: usize, place: usize) -> usize
    requires { Places setup all × Marking setup lens.now }
    ensures { Tells setup lens.now place result }
{
    if all <= place {
        return 0;
    }
    let left = lens[place];
    if left < MARK { usize::from(left) } else { 0 }
}

// Marks the packet of a place, if it has one, as handed out.
pub fn mark(setup: Setup, lens: &mut [u16], all: usize, place: usize)
    requires { Places setup all × Marking setup lens.old }
    ensures { Deletes setup lens.old place lens.new }
{
    if place < all {
        let w = &mut lens[place];
        if *w < MARK {
            *w += MARK;
        }
    }
}

// A length without its mark.
#[tactic(auto, unfolding(crate::specs::Inside::bare, rules::specs::Tests::all_of, rules::specs::Tests::unless))]
fn bare_of(w: u16) -> u16
    ensures { result ≡ bare w }
{
    if MARK <= w && w != STORE_FREE {
        w - MARK
    } else {
        w
    }
}

// Takes all marks off.
pub fn unmark(setup: Setup, lens: &mut [u16])
    requires { Marking setup lens.old }
    ensures { Restores setup lens.old lens.new }
{
    let n = layout::rows(setup);
    for w in &mut lens[..n] {
        *w = bare_of(*w);
    }
}
