// The store's answers and refusals in words: document 01's number and values.
#![tactic(auto)]

ghost use Rattle.std.specs.Prelude.{◌≡◌};
ghost use Rattle.face_words.specs.Inside.{words_of};
ghost use Rattle.store.specs.Refusals.{added_paper, done_paper};
ghost use Rattle.lookup.specs.Refusals.{bad_paper, length_paper, paper, presence_paper};

use face_words::{Words, none, one, two};
use slots::{StoreIdError, StoreRefusal};

fn bad_address(e: StoreIdError) -> Words
    ensures { result ≡ words_of (bad_paper e) }
{
    match e {
        StoreIdError::InvalidSubpool(k) => one(16, u64::from(k)),
        StoreIdError::InvalidPacketIdx(i) => one(17, u64::from(i)),
    }
}

#[tactic(auto, unfolding(lookup::specs::Refusals::paper))]
pub fn store_refusal(e: StoreRefusal) -> Words
    ensures { result ≡ words_of (paper e) }
{
    match e {
        StoreRefusal::BadSetup => none(1),
        StoreRefusal::BadBuffers => none(2),
        StoreRefusal::StateDamaged => none(3),
        StoreRefusal::DataTooLarge(n) => one(11, n as u64),
        StoreRefusal::StoreFull(k) => one(12, u64::from(k)),
        StoreRefusal::InvalidStoreId(b) => bad_address(b),
        StoreRefusal::DataDoesNotExist(a) => one(18, a),
        StoreRefusal::BufferTooSmall { found, expected } => two(19, found as u64, expected as u64),
    }
}

#[tactic(auto, unfolding(store::specs::Refusals::added_paper))]
pub fn added(a: Result<u64, StoreRefusal>) -> Words
    ensures { result ≡ words_of (added_paper a) }
{
    match a {
        Ok(address) => one(0, address),
        Err(e) => store_refusal(e),
    }
}

#[tactic(auto, unfolding(lookup::specs::Refusals::length_paper))]
pub fn length(a: Result<usize, StoreRefusal>) -> Words
    ensures { result ≡ words_of (length_paper a) }
{
    match a {
        Ok(n) => one(0, n as u64),
        Err(e) => store_refusal(e),
    }
}

#[tactic(auto, unfolding(lookup::specs::Refusals::presence_paper))]
pub fn presence(a: Result<bool, StoreRefusal>) -> Words
    ensures { result ≡ words_of (presence_paper a) }
{
    match a {
        Ok(b) => one(0, u64::from(b)),
        Err(e) => store_refusal(e),
    }
}

#[tactic(auto, unfolding(store::specs::Refusals::done_paper))]
pub fn deleted(a: Result<(), StoreRefusal>) -> Words
    ensures { result ≡ words_of (done_paper a) }
{
    match a {
        Ok(()) => none(0),
        Err(e) => store_refusal(e),
    }
}
