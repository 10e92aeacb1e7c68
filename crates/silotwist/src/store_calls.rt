// The store's calls.
ghost use Rattle.std.specs.Prelude.{◌≡◌};
ghost use Rattle.store.specs.Calls.{add_in, delete_in};
ghost use Rattle.lookup.specs.Calls.{judging, packet_in};
ghost use Rattle.presence.specs.Presence.{has_in, len_in};
ghost use Rattle.reading.specs.Reading.{read_in};
ghost use Rattle.face.specs.Face.{Answers};
ghost use Rattle.rules.specs.Papers.{says};
ghost use Rattle.face_words.specs.Inside.{words_of};
ghost use Rattle.face.specs.StoreFace.{BufferFaces, StoreFaces, part_in, store_call};

use face_words::{Words, telling};
use layout::Setup;

#[unsafe(no_mangle)]
pub extern "C" fn silotwist_store_add(
    setup: &[u64],
    store: &mut [u8],
    lens: &mut [u16],
    data: &[u8],
    answer: &mut [u64],
) -> u32
    ensures { StoreFaces setup.now
        (store_call answer.old setup.now store.old lens.old
        (λ su ps. add_in su.spill ps «data».now))
        store.old lens.old answer.old result store.new lens.new answer.new }
{
    if answer.len() < 8 {
        return 2;
    }
    let su = face_reading::store_setup(setup);
    let a = store_public::add(su, store, lens, data);
    let w = store_answers::added(a);
    telling::put(answer, w)
}

#[unsafe(no_mangle)]
pub extern "C" fn silotwist_store_read(
    setup: &[u64],
    store: &[u8],
    lens: &[u16],
    address: u64,
    buffer: &mut [u8],
    answer: &mut [u64],
) -> u32
    ensures { BufferFaces
        (store_call answer.old setup.now store.now lens.now
        (λ su ps. read_in ps address buffer.old))
        buffer.old answer.old result buffer.new answer.new }
{
    if answer.len() < 8 {
        return 2;
    }
    let su = face_reading::store_setup(setup);
    let a = store_public::read(su, store, lens, address, buffer);
    let w = store_answers::length(a);
    telling::put(answer, w)
}

#[unsafe(no_mangle)]
pub extern "C" fn silotwist_store_modify(
    setup: &[u64],
    store: &[u8],
    lens: &[u16],
    address: u64,
    answer: &mut [u64],
) -> u32
    ensures { Answers
        (store_call answer.old setup.now store.now lens.now (λ su ps. packet_in ps address))
        answer.old result answer.new }
{
    if answer.len() < 8 {
        return 2;
    }
    let su = face_reading::store_setup(setup);
    let a = store_public::modify(su, store, lens, address);
    let w = store_answers::length(a);
    telling::put(answer, w)
}

#[unsafe(no_mangle)]
pub extern "C" fn silotwist_store_part(
    setup: &[u64],
    store: &[u8],
    lens: &[u16],
    address: u64,
    answer: &mut [u64],
) -> u32
    ensures { Answers
        (store_call answer.old setup.now store.now lens.now (part_in address))
        answer.old result answer.new }
{
    if answer.len() < 8 {
        return 2;
    }
    let su = face_reading::store_setup(setup);
    let w = part(su, store, lens, address);
    telling::put(answer, w)
}

// Where the packet's bytes lie in the store.
fn part(setup: Setup, store: &[u8], lens: &[u16], address: u64) -> Words
    ensures { result ≡ words_of (says (judging setup store.now lens.now (part_in address setup))) }
{
    if let Err(e) = store_public::judge(setup, store.len(), lens) {
        return store_answers::store_refusal(e);
    }
    match lookup::find(setup, store, lens, address) {
        Err(e) => store_answers::store_refusal(e),
        Ok(s) => face_words::two(0, s.from as u64, s.len as u64),
    }
}

#[unsafe(no_mangle)]
pub extern "C" fn silotwist_store_delete(
    setup: &[u64],
    store: &mut [u8],
    lens: &mut [u16],
    address: u64,
    answer: &mut [u64],
) -> u32
    ensures { StoreFaces setup.now
        (store_call answer.old setup.now store.old lens.old (λ su ps. delete_in ps address))
        store.old lens.old answer.old result store.new lens.new answer.new }
{
    if answer.len() < 8 {
        return 2;
    }
    let su = face_reading::store_setup(setup);
    let a = store_public::delete(su, store, lens, address);
    let w = store_answers::deleted(a);
    telling::put(answer, w)
}

#[unsafe(no_mangle)]
pub extern "C" fn silotwist_store_has(
    setup: &[u64],
    store: &[u8],
    lens: &[u16],
    address: u64,
    answer: &mut [u64],
) -> u32
    ensures { Answers
        (store_call answer.old setup.now store.now lens.now (λ su ps. has_in ps address))
        answer.old result answer.new }
{
    if answer.len() < 8 {
        return 2;
    }
    let su = face_reading::store_setup(setup);
    let a = store_public::has_element_at(su, store, lens, address);
    let w = store_answers::presence(a);
    telling::put(answer, w)
}

#[unsafe(no_mangle)]
pub extern "C" fn silotwist_store_len(
    setup: &[u64],
    store: &[u8],
    lens: &[u16],
    address: u64,
    answer: &mut [u64],
) -> u32
    ensures { Answers
        (store_call answer.old setup.now store.now lens.now (λ su ps. len_in ps address))
        answer.old result answer.new }
{
    if answer.len() < 8 {
        return 2;
    }
    let su = face_reading::store_setup(setup);
    let a = store_public::len_of_data(su, store, lens, address);
    let w = store_answers::length(a);
    telling::put(answer, w)
}
