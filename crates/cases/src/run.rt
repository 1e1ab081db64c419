// A case is run and printed, by a writer that the caller lends. A call fails where the writer does. What else it was lent keeps its length
// then too, and holds whatever the case left there so far.
ghost use Rattle.std.specs.Prelude.{◌≡◌, ◌≤◌, ◌<◌, length, IfOk, IfSome};
ghost use Rattle.cases.specs.Parts.{HasParts, HasCall};

use crate::{call, parts};
use case_print::print;
use std::io;
use std::io::Write;

// What goes with the answer of a call, behind it: of an opening the parts; of a call that may change them store, records and worklist, or
// without its state the store's bytes and the worklist alone.
fn print_left<W: Write>(
    out: &mut W,
    pack: &[u8],
    store: &[u8],
    records: &[u8],
    list: &[u8],
    call: u8,
    words: [u32; 7],
    with_state: bool,
) -> io::Result<()>
    requires { (384 ≤ length records.now) × (132 ≤ length list.now) }
{
    match call {
        0 => Ok(()),
        1 => print::print_opened(out, pack, words[0]),
        _ => print_after(out, store, records, list, with_state),
    }
}

// The store, the records and the worklist that a call left, or the store's bytes and the worklist alone.
fn print_after<W: Write>(
    out: &mut W,
    store: &[u8],
    records: &[u8],
    list: &[u8],
    with_state: bool,
) -> io::Result<()>
    requires { (384 ≤ length records.now) × (132 ≤ length list.now) }
{
    if with_state {
        print::print_store(out, store)?;
        print::print_slots(out, records)?;
    } else {
        print::print_bytes(out, store)?;
    }
    print::print_list(out, list)
}

// The figures of a workflow, or the refusal, as a host is told them.
fn print_figures<W: Write>(out: &mut W, pack: &[u8], workflow: u32) -> io::Result<()> {
    let mut answer = [0u8; 48];
    let number = host::sarthule_figures(pack, workflow, &mut answer);
    if number == 0 {
        return print::print_figures(out, &answer[12..48]);
    }
    print::print_answer(out, answers::read_answer(number, &answer))
}

// The reply worked out from the log, that there is none yet, or the refusal, as a host is told it.
fn print_reply<W: Write>(out: &mut W, pack: &[u8], store: &[u8], id: u32) -> io::Result<()> {
    let mut answer = [0u8; 12];
    let number = host::sarthule_reply(pack, store, id, &mut answer);
    if number == 5 {
        return print::print_not_yet(out);
    }
    print::print_answer(out, answers::read_answer(number, &answer))
}

// The answer of a call, and what goes with it. Figures (8) and a reply (15) are all that is printed of theirs.
fn print_outcome<W: Write>(
    out: &mut W,
    pack: &[u8],
    store: &mut [u8],
    records: &mut [u8],
    list: &mut [u8],
    call: u8,
    words: [u32; 7],
    with_state: bool,
) -> io::Result<()>
    requires { (length records.old ≡ 384) × (132 ≤ length list.old) }
{
    match call {
        8 => print_figures(out, pack, words[0]),
        15 => print_reply(out, pack, store, words[0]),
        _ => {
            let answer = call::make_call(pack, store, records, list, call, words);
            print::print_answer(out, answer)?;
            print_left(out, pack, store, records, list, call, words, with_state)
        }
    }
}

// A call, on a copy of its store in `buffer`, a copy of its records and an empty worklist.
fn print_call<W: Write>(
    out: &mut W,
    c: &[u8],
    with_state: bool,
    buffer: &mut [u8],
) -> io::Result<()>
    requires { HasCall c.now × (length c.now ≤ length buffer.old) }
{
    let pack_end = parts::pack_end(c);
    let parts_end = parts::parts_end(c);
    let store_bytes = text::append_bytes(buffer, 0, &c[pack_end..parts_end]);
    let mut records = [0u8; 384];
    text::append_bytes(&mut records, 0, &c[parts_end..parts_end + 384]);
    let mut list = [0u8; 132];
    print_outcome(
        out,
        &c[9..pack_end],
        &mut buffer[..store_bytes],
        &mut records,
        &mut list,
        c[parts_end + 384],
        parts::call_words(c),
        with_state,
    )
}

// The answers of calls, 29 bytes each, each call on what the one before left.
fn print_answers<W: Write>(
    out: &mut W,
    pack: &[u8],
    store: &mut [u8],
    records: &mut [u8],
    list: &mut [u8],
    calls: &[u8],
) -> io::Result<()>
    requires { (length records.old ≡ 384) × (132 ≤ length list.old) }
{
    for call in calls.chunks_exact(29) {
        let words = parts::words_at(call, 1);
        let answer = call::make_call(pack, store, records, list, call[0], words);
        print::print_answer(out, answer)?;
    }
    Ok(())
}

// A list of calls, on a copy of the store in `buffer`, a copy of the records and the worklist.
fn print_list<W: Write>(
    out: &mut W,
    pack: &[u8],
    store: &[u8],
    entries: &[u8],
    calls: &[u8],
    with_state: bool,
    buffer: &mut [u8],
) -> io::Result<()>
    requires { (385 ≤ length calls.now) × (length store.now ≤ length buffer.old) }
{
    let store_bytes = text::append_bytes(buffer, 0, store);
    let mut records = [0u8; 384];
    text::append_bytes(&mut records, 0, &calls[0..384]);
    let mut list = [0u8; 2044];
    parts::lend_list(&mut list, entries);
    print_answers(
        out,
        pack,
        &mut buffer[0..store_bytes],
        &mut records,
        &mut list,
        &calls[385..],
    )?;
    print_after(out, &buffer[0..store_bytes], &records, &list, with_state)
}

// A call with a worklist, on a copy of the store in `buffer`, a copy of the records and the worklist.
fn print_listed<W: Write>(
    out: &mut W,
    pack: &[u8],
    store: &[u8],
    entries: &[u8],
    call: &[u8],
    with_state: bool,
    buffer: &mut [u8],
) -> io::Result<()>
    requires { (413 ≤ length call.now) × (length store.now ≤ length buffer.old) }
{
    let store_bytes = text::append_bytes(buffer, 0, store);
    let mut records = [0u8; 384];
    text::append_bytes(&mut records, 0, &call[0..384]);
    let mut list = [0u8; 2044];
    parts::lend_list(&mut list, entries);
    print_outcome(
        out,
        pack,
        &mut buffer[0..store_bytes],
        &mut records,
        &mut list,
        call[384],
        parts::words_at(call, 385),
        with_state,
    )
}

// A schedule: what the schedule program prints.
fn print_schedule<W: Write>(out: &mut W, pack: &[u8], schedule: &[u8]) -> io::Result<()> {
    let mut store = schedule::input::zeros::<27_669>();
    let mut text = schedule::input::zeros::<524_288>();
    let written = schedule::run::run(pack, schedule, &mut store, &mut text);
    out.write_all(&text[..written])
}

// The kinds of cases.
#[derive(Clone, Copy)]
enum Kind {
    Schedule,
    Call,
    // A call with a worklist.
    Listed,
    // A list of calls.
    Calls,
}

// The kind that a byte stands for.
fn kind_of(byte: u8) -> Option<Kind> {
    match byte {
        0 => Some(Kind::Schedule),
        1 => Some(Kind::Call),
        2 => Some(Kind::Listed),
        3 => Some(Kind::Calls),
        _ => None,
    }
}

// A call.
fn print_call_case<W: Write>(
    out: &mut W,
    c: &[u8],
    title: &[u8],
    with_state: bool,
    buffer: &mut [u8],
) -> io::Result<Option<usize>>
    requires { HasParts c.now × (length c.now ≤ length buffer.old) }
    ensures size { IfOk result (λ case. IfSome case (λ size. (0 < size) × (size ≤ length c.now))) }
    ensures kept { length buffer.new ≡ length buffer.old }
{
    if !parts::has_call(c) {
        return Ok(None);
    }
    let end = parts::call_end(c);
    out.write_all(title)?;
    print_call(out, c, with_state, buffer)?;
    Ok(Some(end))
}

// A call with a worklist, or a list of calls.
fn print_listed_case<W: Write>(
    out: &mut W,
    kind: Kind,
    c: &[u8],
    title: &[u8],
    with_state: bool,
    buffer: &mut [u8],
) -> io::Result<Option<usize>>
    requires { HasParts c.now × (length c.now ≤ length buffer.old) }
    ensures size { IfOk result (λ case. IfSome case (λ size. (0 < size) × (size ≤ length c.now))) }
    ensures kept { length buffer.new ≡ length buffer.old }
{
    if c.len() < 10 {
        return Ok(None);
    }
    let pack_end = parts::pack_end(c) + 1;
    let store_end = parts::parts_end(c) + 1;
    let list_end = store_end + 5 * usize::from(c[9]);
    if c.len() < list_end {
        return Ok(None);
    }
    let rest = &c[list_end..];
    let pack = &c[10..pack_end];
    let store = &c[pack_end..store_end];
    let entries = &c[store_end..list_end];
    let Some(bytes) = print_rest(
        out, kind, pack, store, entries, rest, title, with_state, buffer,
    )?
    else {
        return Ok(None);
    };
    Ok(Some(list_end + bytes))
}

// What stands behind the worklist of such a case, the records and the call or the calls, by its kind. The answer is how many bytes it has.
fn print_rest<W: Write>(
    out: &mut W,
    kind: Kind,
    pack: &[u8],
    store: &[u8],
    entries: &[u8],
    rest: &[u8],
    title: &[u8],
    with_state: bool,
    buffer: &mut [u8],
) -> io::Result<Option<usize>>
    requires { length store.now ≤ length buffer.old }
    ensures size { IfOk result (λ case. IfSome case (λ size. size ≤ length rest.now)) }
    ensures kept { length buffer.new ≡ length buffer.old }
{
    if let Kind::Listed = kind {
        let Some(bytes) = parts::call_bytes(rest) else {
            return Ok(None);
        };
        out.write_all(title)?;
        print_listed(
            out,
            pack,
            store,
            entries,
            &rest[..bytes],
            with_state,
            buffer,
        )?;
        return Ok(Some(bytes));
    }
    let Some(bytes) = parts::list_bytes(rest) else {
        return Ok(None);
    };
    out.write_all(title)?;
    print_list(
        out,
        pack,
        store,
        entries,
        &rest[..bytes],
        with_state,
        buffer,
    )?;
    Ok(Some(bytes))
}

// A schedule.
fn print_schedule_case<W: Write>(out: &mut W, c: &[u8], title: &[u8]) -> io::Result<Option<usize>>
    requires { HasParts c.now }
    ensures { IfOk result (λ case. IfSome case (λ size. (0 < size) × (size ≤ length c.now))) }
{
    let pack_end = parts::pack_end(c);
    let parts_end = parts::parts_end(c);
    out.write_all(title)?;
    print_schedule(out, &c[9..pack_end], &c[pack_end..parts_end])?;
    Ok(Some(parts_end))
}

// The case that `c` begins with is run, and printed behind its title. The answer is how many bytes it has; there is none for a malformed
// case, of which nothing is printed.
pub fn print_case<W: Write>(
    out: &mut W,
    c: &[u8],
    title: &[u8],
    with_state: bool,
    buffer: &mut [u8],
) -> io::Result<Option<usize>>
    requires { length c.now ≤ length buffer.old }
    ensures size { IfOk result (λ case. IfSome case (λ size. (0 < size) × (size ≤ length c.now))) }
    ensures kept { length buffer.new ≡ length buffer.old }
{
    if !parts::has_parts(c) {
        return Ok(None);
    }
    match kind_of(c[0]) {
        Some(Kind::Schedule) => print_schedule_case(out, c, title),
        Some(Kind::Call) => print_call_case(out, c, title, with_state, buffer),
        Some(kind) => print_listed_case(out, kind, c, title, with_state, buffer),
        None => Ok(None),
    }
}
