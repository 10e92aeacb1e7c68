// The store's requests, to the proved library: the number that was returned; the answer's words, and the bytes handed out, are in what is lent.
#![tactic(auto)]

use oracle_words::tables::Tables;
use silotwist::store_calls;
use text::line::Line;

pub fn add(request: Line<'_>, t: &mut Tables) -> u32 {
    let packet = request.bytes(1, &mut t.bytes);
    store_calls::silotwist_store_add(
        t.setup.lent(),
        &mut t.store,
        &mut t.lens,
        packet,
        &mut t.answer,
    )
}

// Into as much of the bytes as the request says.
pub fn read(request: Line<'_>, t: &mut Tables) -> u32 {
    let bytes = &mut t.bytes[..];
    let n = request.index(2).min(bytes.len());
    store_calls::silotwist_store_read(
        t.setup.lent(),
        &t.store,
        &t.lens,
        request.number(1),
        &mut bytes[..n],
        &mut t.answer,
    )
}

// Without a second word the bytes stay as they are; with one they are rewritten through the lent part.
pub fn modify(request: Line<'_>, t: &mut Tables) -> u32 {
    let address = request.number(1);
    if request.rest(2).is_empty() {
        return store_calls::silotwist_store_modify(
            t.setup.lent(),
            &t.store,
            &t.lens,
            address,
            &mut t.answer,
        );
    }
    let number = store_calls::silotwist_store_part(
        t.setup.lent(),
        &t.store,
        &t.lens,
        address,
        &mut t.answer,
    );
    if number == 0 {
        let [from, len, ..] = t.answer;
        rewrite(&mut t.store, from as usize, len as usize, request.byte(2));
        t.answer[0] = len;
        t.answer[1] = 0;
    }
    number
}

// As the original's closure did: each byte by the number and its place.
fn rewrite(store: &mut [u8], from: usize, len: usize, by: u8) {
    let mut place = by;
    for b in store.iter_mut().skip(from).take(len) {
        *b ^= place;
        place = place.wrapping_add(1);
    }
}

pub fn delete(request: Line<'_>, t: &mut Tables) -> u32 {
    store_calls::silotwist_store_delete(
        t.setup.lent(),
        &mut t.store,
        &mut t.lens,
        request.number(1),
        &mut t.answer,
    )
}

pub fn has(request: Line<'_>, t: &mut Tables) -> u32 {
    store_calls::silotwist_store_has(
        t.setup.lent(),
        &t.store,
        &t.lens,
        request.number(1),
        &mut t.answer,
    )
}

pub fn len(request: Line<'_>, t: &mut Tables) -> u32 {
    store_calls::silotwist_store_len(
        t.setup.lent(),
        &t.store,
        &t.lens,
        request.number(1),
        &mut t.answer,
    )
}
