// The words that the C face writes: an answer's number and values, and the record's.
#![tactic(auto)]

ghost use Rattle.std.specs.Prelude.{◌≡◌, [], ◌∷◌};
ghost use Rattle.record.specs.Refusals.{word_of};
ghost use Rattle.rules.specs.Papers.{no};
ghost use Rattle.face_words.specs.Inside.{words_of};

pub mod telling;
mod writing;

// An answer: the number to return, and the answer's first words.
#[derive(Clone, Copy)]
pub struct Words {
    pub number: u32,
    pub values: [u64; 8],
}

pub fn none(number: u32) -> Words
    ensures { result ≡ words_of (no number []) }
{
    Words {
        number,
        values: [0; 8],
    }
}

pub fn one(number: u32, a: u64) -> Words
    ensures { result ≡ words_of (no number (a ∷ [])) }
{
    Words {
        number,
        values: [a, 0, 0, 0, 0, 0, 0, 0],
    }
}

pub fn two(number: u32, a: u64, b: u64) -> Words
    ensures { result ≡ words_of (no number (a ∷ b ∷ [])) }
{
    Words {
        number,
        values: [a, b, 0, 0, 0, 0, 0, 0],
    }
}

// Seconds as their two's complement.
pub fn word_of(secs: i64) -> u64
    ensures { result ≡ word_of secs }
{
    secs.cast_unsigned()
}
