// The totals of a shift: how many commands were released, discarded and missing.
#![tactic(auto)]

ghost use Rattle.std.specs.Prelude.{◌≡◌};
ghost use Rattle.shift_totals.specs.Tally.{tally};

// `behind` counts the released ones that came after a missing packet.
#[derive(Clone, Copy, Default)]
pub struct Totals {
    pub released: u64,
    pub discarded: u64,
    pub missing: u64,
    pub behind: u64,
}

impl Totals {
    // With a record of this flag.
    #[tactic(auto, unfolding(crate::specs::Tally::more, crate::specs::Tally::tally))]
    pub fn with(self, flag: u8) -> Totals
        ensures { result ≡ tally flag self }
    {
        match flag {
            1 if self.missing == 0 => Totals {
                released: self.released.saturating_add(1),
                ..self
            },
            1 => Totals {
                released: self.released.saturating_add(1),
                behind: self.behind.saturating_add(1),
                ..self
            },
            0 => Totals {
                discarded: self.discarded.saturating_add(1),
                ..self
            },
            _ => Totals {
                missing: self.missing.saturating_add(1),
                ..self
            },
        }
    }
}
