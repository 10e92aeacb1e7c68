// Windows of time given as arguments (document 01, module 5): 4 for an end out of range, 15 for a start after the end, then the window in moments.
#![tactic(auto)]

ghost use Rattle.std.specs.Prelude.{◌≡◌, ◌&&◌, true, leb};
ghost use Rattle.time.specs.Time.{InRange, instant};
ghost use Rattle.selection.specs.Inside.{EndsInRange};
ghost use Rattle.windows.specs.Inside.{Opens};
ghost use Rattle.windows.specs.Windowing.{ends_in_range, forward as forwardOf, window_of};

use record::ScheduleRefusal;
use selection::{MomentWindow, Part};
use time::UnixTime;

pub mod judged;

// A window of time, as it is given: an end that it has not is no argument.
#[derive(Clone, Copy)]
pub enum TimeWindow {
    All,
    FromTo(UnixTime, UnixTime),
    From(UnixTime),
    To(UnixTime),
}

pub fn open(w: TimeWindow) -> Result<MomentWindow, ScheduleRefusal>
    ensures { Opens w result }
{
    if !ends_in_range(w) {
        return Err(ScheduleRefusal::BadTime);
    }
    if !forward(w) {
        return Err(ScheduleRefusal::ReversedWindow);
    }
    Ok(moments(w))
}

fn ends_in_range(w: TimeWindow) -> bool
    ensures { result ≡ ends_in_range w }
{
    match w {
        TimeWindow::All => true,
        TimeWindow::FromTo(f, t) => f.in_range() && t.in_range(),
        TimeWindow::From(f) => f.in_range(),
        TimeWindow::To(t) => t.in_range(),
    }
}

fn forward(w: TimeWindow) -> bool
    requires { ends_in_range w ≡ true }
    ensures { result ≡ forwardOf w }
{
    match w {
        TimeWindow::All => true,
        TimeWindow::FromTo(f, t) => not_after(f, t),
        TimeWindow::From(_) => true,
        TimeWindow::To(_) => true,
    }
}

fn moments(w: TimeWindow) -> MomentWindow
    requires { ends_in_range w ≡ true }
    ensures { (result ≡ window_of w) × EndsInRange result }
{
    match w {
        TimeWindow::All => MomentWindow::All,
        TimeWindow::FromTo(f, t) => MomentWindow::FromTo(f.to_moment(), t.to_moment()),
        TimeWindow::From(f) => MomentWindow::From(f.to_moment()),
        TimeWindow::To(t) => MomentWindow::To(t.to_moment()),
    }
}

fn not_after(f: UnixTime, t: UnixTime) -> bool
    requires in_range { InRange f }
    requires in_range_2 { InRange t }
    ensures { result ≡ leb (instant f) (instant t) }
{
    !t.to_moment().is_before(f.to_moment())
}
