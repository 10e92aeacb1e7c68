// The store's calls.
ghost use Rattle.store.specs.Calls.{add_in, delete_in};
ghost use Rattle.lookup.specs.Calls.{packet_in};
ghost use Rattle.presence.specs.Presence.{has_in, len_in};
ghost use Rattle.reading.specs.Reading.{read_in};
ghost use Rattle.face.specs.Face.{Answers};
ghost use Rattle.face.specs.StoreFace.{BufferFaces, StoreFaces, part_in, store_call};

#[unsafe(no_mangle)]
pub extern "C" fn silotwist_store_add(
    setup: &[u64],
    store: &mut [u8],
    lens: &mut [u16],
    data: &[u8],
    answer: &mut [u64],
) -> u32
    ensures { StoreFaces setup.now
        (store_call answer.old setup.now store.old lens.old
        (λ su ps. add_in su.spill ps «data».now))
        store.old lens.old answer.old result store.new lens.new answer.new }
{
    silotwist::store_calls::silotwist_store_add(setup, store, lens, data, answer)
}

#[unsafe(no_mangle)]
pub extern "C" fn silotwist_store_read(
    setup: &[u64],
    store: &[u8],
    lens: &[u16],
    address: u64,
    buffer: &mut [u8],
    answer: &mut [u64],
) -> u32
    ensures { BufferFaces
        (store_call answer.old setup.now store.now lens.now
        (λ su ps. read_in ps address buffer.old))
        buffer.old answer.old result buffer.new answer.new }
{
    silotwist::store_calls::silotwist_store_read(setup, store, lens, address, buffer, answer)
}

#[unsafe(no_mangle)]
pub extern "C" fn silotwist_store_modify(
    setup: &[u64],
    store: &[u8],
    lens: &[u16],
    address: u64,
    answer: &mut [u64],
) -> u32
    ensures { Answers
        (store_call answer.old setup.now store.now lens.now (λ su ps. packet_in ps address))
        answer.old result answer.new }
{
    silotwist::store_calls::silotwist_store_modify(setup, store, lens, address, answer)
}

#[unsafe(no_mangle)]
pub extern "C" fn silotwist_store_part(
    setup: &[u64],
    store: &[u8],
    lens: &[u16],
    address: u64,
    answer: &mut [u64],
) -> u32
    ensures { Answers
        (store_call answer.old setup.now store.now lens.now (part_in address))
        answer.old result answer.new }
{
    silotwist::store_calls::silotwist_store_part(setup, store, lens, address, answer)
}

#[unsafe(no_mangle)]
pub extern "C" fn silotwist_store_delete(
    setup: &[u64],
    store: &mut [u8],
    lens: &mut [u16],
    address: u64,
    answer: &mut [u64],
) -> u32
    ensures { StoreFaces setup.now
        (store_call answer.old setup.now store.old lens.old (λ su ps. delete_in ps address))
        store.old lens.old answer.old result store.new lens.new answer.new }
{
    silotwist::store_calls::silotwist_store_delete(setup, store, lens, address, answer)
}

#[unsafe(no_mangle)]
pub extern "C" fn silotwist_store_has(
    setup: &[u64],
    store: &[u8],
    lens: &[u16],
    address: u64,
    answer: &mut [u64],
) -> u32
    ensures { Answers
        (store_call answer.old setup.now store.now lens.now (λ su ps. has_in ps address))
        answer.old result answer.new }
{
    silotwist::store_calls::silotwist_store_has(setup, store, lens, address, answer)
}

#[unsafe(no_mangle)]
pub extern "C" fn silotwist_store_len(
    setup: &[u64],
    store: &[u8],
    lens: &[u16],
    address: u64,
    answer: &mut [u64],
) -> u32
    ensures { Answers
        (store_call answer.old setup.now store.now lens.now (λ su ps. len_in ps address))
        answer.old result answer.new }
{
    silotwist::store_calls::silotwist_store_len(setup, store, lens, address, answer)
}
