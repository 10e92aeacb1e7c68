// The rows of a window of time: one unbroken range, as the rows are in order.
ghost use Rattle.std.specs.Prelude.{◌≡◌};
ghost use Rattle.rows.specs.Entries.{unpack};
ghost use Rattle.rows.specs.Order.{Sound};
ghost use Rattle.selection.specs.Inside.{EndsInRange};
ghost use Rattle.selection.specs.Windows.{Retrieves, end_of, start_of};

use crate::{MomentWindow, Part};
use table::{below, up_to};

// The first row of the window and the number of its rows; row 0 where it has none.
pub fn rows_in(rows: &[u64], count: usize, w: MomentWindow) -> Part
    requires sound { Sound rows.now count }
    requires ends_in_range { EndsInRange w }
    ensures { Retrieves w rows.now count result.first result.number }
{
    let a = start(rows, count, w);
    let b = end(rows, count, w);
    if b <= a {
        return Part {
            first: 0,
            number: 0,
        };
    }
    Part {
        first: a,
        number: b - a,
    }
}

// How many rows are before the window.
fn start(rows: &[u64], count: usize, w: MomentWindow) -> usize
    requires sound { Sound rows.now count }
    requires ends_in_range { EndsInRange w }
    ensures { result ≡ start_of w (unpack count rows.now) }
{
    match w {
        MomentWindow::FromTo(f, _) | MomentWindow::From(f) => below(rows, count, f),
        MomentWindow::All | MomentWindow::To(_) => 0,
    }
}

// How many rows are not after the window.
fn end(rows: &[u64], count: usize, w: MomentWindow) -> usize
    requires sound { Sound rows.now count }
    requires ends_in_range { EndsInRange w }
    ensures { result ≡ end_of w (unpack count rows.now) }
{
    match w {
        MomentWindow::FromTo(_, t) | MomentWindow::To(t) => up_to(rows, count, t),
        MomentWindow::All | MomentWindow::From(_) => count,
    }
}
