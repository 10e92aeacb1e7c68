// A digit written.
ghost use Rattle.std.specs.Prelude.{◌≡◌, ◌<◌};
ghost use Rattle.digits.specs.Digits.{value};

// A digit below 16; read back, it is the same.
#[tactic(auto, unfolding(crate::specs::Digits::value))]
pub fn digit(d: u8) -> u8
    requires { d < 16 }
    ensures { value result ≡ d }
{
    if d < 10 { b'0' + d } else { b'A' + (d - 10) }
}
