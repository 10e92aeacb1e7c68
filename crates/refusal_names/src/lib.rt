// The refusals' names, by document 01's numbers.
#![tactic(auto)]

ghost use Rattle.std.specs.Prelude.{◌≡◌};
ghost use Rattle.refusal_names.specs.Names.{name_of as table_name};

use text::say;

// The name of a refusal; empty where no refusal has the number.
#[tactic(auto, unfolding(crate::specs::Names::names))]
pub fn name_of(no: u64) -> &'static str
    ensures { result.now ≡ table_name no }
{
    match no {
        0 => "-",
        1 => "BadSetup",
        2 => "BadBuffers",
        3 => "StateDamaged",
        4 => "BadTime",
        5 => "WrongService",
        6 => "WrongSubservice",
        7 => "TcDataEmpty",
        8 => "BadTimestamp",
        9 => "TcUnreadable",
        10 => "NestedScheduledTc",
        11 => "DataTooLarge",
        12 => "StoreFull",
        13 => "ReleaseTimeInTimeMargin",
        14 => "ScheduleFull",
        15 => "ReversedWindow",
        16 => "InvalidSubpool",
        17 => "InvalidPacketIdx",
        18 => "DataDoesNotExist",
        19 => "BufferTooSmall",
        20 => "LogTooSmall",
        _ => "",
    }
}

// A refusal's number and name.
pub fn name(rt: &impl Print, no: u64) {
    say!(rt; "{no} {}", name_of(no));
}
