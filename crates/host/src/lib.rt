// The calls for a program in another language, on numbers and lent bytes. `include/sarthule.h` has the same for C.
#![tactic(auto)]

ghost use Rattle.std.specs.Prelude.{List, [], ◌∷◌, ℕ};
ghost use Rattle.rules.specs.Calls.{Call};
ghost use Rattle.pack.specs.Refusal.{pack_refusal, open_refusal};
ghost use Rattle.answers.specs.Answers.{values_of, judged};
ghost use Rattle.host.specs.Told.{opened_words, Told, FiguresTold, ReplyTold, Made};
ghost use Rattle.host.specs.Exports.{Exported, ListExported, StoreExported, Restarted, PutInOrder};

use agents::{Accepted, Request};

// The check of a pack.
pub fn sarthule_check(pack: &[u8], answer: &mut [u8]) -> u32
    ensures { Told 12 answer.old (judged (pack_refusal pack.now))
        (values_of (judged (pack_refusal pack.now))) result answer.new }
{
    if answer.len() < 12 {
        return 100;
    }
    answers::write_answer(answer, answers::judge(pack::check(pack)))
}

// Where the parts of a workflow stand in the pack.
pub fn sarthule_open(pack: &[u8], workflow: u32, answer: &mut [u8]) -> u32
    ensures { Told 28 answer.old (judged (open_refusal pack.now workflow))
        (opened_words pack.now workflow) result answer.new }
{
    if answer.len() < 28 {
        return 100;
    }
    let v = pack::open(pack, workflow);
    let number = answers::write_answer(answer, answers::judge(v));
    match v {
        Ok(()) => {
            let w = workflow as usize;
            let size = pack::size_at(pack, w);
            answers::write_parts(
                answer,
                pack::operations_at(pack, w),
                size,
                pack::operands_at(pack, w),
                4 * size,
            );
        }
        Err(_) => answers::write_parts(answer, 0, 0, 0, 0),
    }
    number
}

// How much a workflow takes: its most turns, and its most rows in each partition.
pub fn sarthule_figures(pack: &[u8], workflow: u32, answer: &mut [u8]) -> u32
    ensures { FiguresTold pack.now answer.old workflow result answer.new }
{
    if answer.len() < 48 {
        return 100;
    }
    match figures::figures(pack, workflow) {
        Ok(f) => {
            let number = answers::write_answer(answer, Ok(Accepted::Done));
            answers::write_figures(answer, f.turns, f.rows);
            number
        }
        Err(no) => {
            let number = answers::write_answer(answer, Err(no));
            answers::write_figures(answer, 0, [0; 8]);
            number
        }
    }
}

// Writes a fresh store.
pub fn sarthule_create(store: &mut [u8], partitions: usize, rows: usize, answer: &mut [u8]) -> u32
    ensures { Made store.old answer.old partitions rows result store.new answer.new }
{
    if answer.len() < 12 {
        return 100;
    }
    let v = store_write::create::create(store, partitions, rows);
    answers::write_answer(answer, answers::judge(v))
}

// Puts the rows of an earlier store in order.
pub fn sarthule_order(store: &mut [u8], answer: &mut [u8]) -> u32
    ensures { PutInOrder store.old answer.old result store.new answer.new }
{
    if answer.len() < 12 {
        return 100;
    }
    let a = runtime::order(store);
    answers::write_answer(answer, a)
}

// Arrival books a new id, then starts an agent; a known id only starts one.
pub fn sarthule_arrival(
    pack: &[u8],
    store: &mut [u8],
    slots: &mut [u8],
    slot: usize,
    id: u32,
    workflow: u32,
    a0: u32,
    a1: u32,
    a2: u32,
    a3: u32,
    answer: &mut [u8],
) -> u32
    ensures { Exported pack.now store.old slots.old answer.old
        (Call.arrival slot id workflow (a0 ∷ a1 ∷ a2 ∷ a3 ∷ [])) result store.new slots.new answer.new }
{
    if answer.len() < 12 {
        return 100;
    }
    if slots.len() != 384 {
        return 101;
    }
    let mut agents = slots::read_slots(slots);
    let q = Request {
        workflow,
        a0,
        a1,
        a2,
        a3,
    };
    let said = runtime::arrival(pack, store, &mut agents, slot, id, q);
    answers::finish(slots, answer, said, agents)
}

// Retry starts an agent from the book.
pub fn sarthule_retry(
    pack: &[u8],
    store: &[u8],
    slots: &mut [u8],
    slot: usize,
    id: u32,
    answer: &mut [u8],
) -> u32
    ensures { Exported pack.now store.now slots.old answer.old
        (Call.retry slot id) result store.now slots.new answer.new }
{
    if answer.len() < 12 {
        return 100;
    }
    if slots.len() != 384 {
        return 101;
    }
    let mut agents = slots::read_slots(slots);
    let said = runtime::retry(pack, store, &mut agents, slot, id);
    answers::finish(slots, answer, said, agents)
}

// The agent in a slot moves on.
pub fn sarthule_turn(
    pack: &[u8],
    store: &mut [u8],
    slots: &mut [u8],
    slot: usize,
    answer: &mut [u8],
) -> u32
    ensures { Exported pack.now store.old slots.old answer.old
        (Call.turn slot) result store.new slots.new answer.new }
{
    if answer.len() < 12 {
        return 100;
    }
    if slots.len() != 384 {
        return 101;
    }
    let mut agents = slots::read_slots(slots);
    let said = runtime::turn(pack, store, &mut agents, slot);
    answers::finish(slots, answer, said, agents)
}

// Crash empties a slot.
pub fn sarthule_crash(
    pack: &[u8],
    store: &[u8],
    slots: &mut [u8],
    slot: usize,
    answer: &mut [u8],
) -> u32
    ensures { Exported pack.now store.now slots.old answer.old
        (Call.crash slot) result store.now slots.new answer.new }
{
    if answer.len() < 12 {
        return 100;
    }
    if slots.len() != 384 {
        return 101;
    }
    let mut agents = slots::read_slots(slots);
    let said = runtime::crash(pack, store, &mut agents, slot);
    answers::finish(slots, answer, said, agents)
}

// Restart empties all slots, and marks all as waiting in a worklist that passes 25.
pub fn sarthule_restart(slots: &mut [u8], list: &mut [u8], answer: &mut [u8]) -> u32
    ensures { Restarted slots.old list.old answer.old result
        slots.new list.new answer.new }
{
    if answer.len() < 12 {
        return 100;
    }
    if slots.len() != 384 {
        return 101;
    }
    if list.len() < 132 {
        return 102;
    }
    // Whatever records there were, they make no difference: they aren't read.
    let mut agents = agents::no_agents();
    let mut left = worklist::read_list(list);
    runtime::restart(&mut agents, &mut left);
    slots::write_slots(slots, agents);
    worklist::write_list(list, left);
    answers::write_answer(answer, Ok(Accepted::Done))
}

// Add puts a booked id on the worklist.
pub fn sarthule_add(
    pack: &[u8],
    store: &[u8],
    slots: &[u8],
    list: &mut [u8],
    id: u32,
    answer: &mut [u8],
) -> u32
    ensures { ListExported pack.now store.now slots.now list.old answer.old
        (Call.list_add id) result list.new answer.new }
{
    if answer.len() < 12 {
        return 100;
    }
    if slots.len() != 384 {
        return 101;
    }
    if list.len() < 132 {
        return 102;
    }
    let agents = slots::read_slots(slots);
    let mut left = worklist::read_list(list);
    let said = runtime::add(pack, store, &agents, &mut left, id);
    answers::finish_list(list, answer, said, left)
}

// Take gives the first waiting id of the worklist, and marks it.
pub fn sarthule_take(
    pack: &[u8],
    store: &[u8],
    slots: &[u8],
    list: &mut [u8],
    answer: &mut [u8],
) -> u32
    ensures { ListExported pack.now store.now slots.now list.old answer.old
        Call.list_take result list.new answer.new }
{
    if answer.len() < 12 {
        return 100;
    }
    if slots.len() != 384 {
        return 101;
    }
    if list.len() < 132 {
        return 102;
    }
    let agents = slots::read_slots(slots);
    let mut left = worklist::read_list(list);
    let said = runtime::take(pack, store, &agents, &mut left);
    answers::finish_list(list, answer, said, left)
}

// Done removes a taken id from the worklist, when its log leads through to RETURN.
pub fn sarthule_done(
    pack: &[u8],
    store: &[u8],
    slots: &[u8],
    list: &mut [u8],
    id: u32,
    answer: &mut [u8],
) -> u32
    ensures { ListExported pack.now store.now slots.now list.old answer.old
        (Call.list_done id) result list.new answer.new }
{
    if answer.len() < 12 {
        return 100;
    }
    if slots.len() != 384 {
        return 101;
    }
    if list.len() < 132 {
        return 102;
    }
    let agents = slots::read_slots(slots);
    let mut left = worklist::read_list(list);
    let said = runtime::done(pack, store, &agents, &mut left, id);
    answers::finish_list(list, answer, said, left)
}

// Retire removes the book and log rows of every id below the floor.
pub fn sarthule_retire(
    pack: &[u8],
    store: &mut [u8],
    slots: &[u8],
    list: &[u8],
    floor: u32,
    answer: &mut [u8],
) -> u32
    ensures { StoreExported pack.now store.old slots.now list.now answer.old
        (Call.retire floor) result store.new answer.new }
{
    if answer.len() < 12 {
        return 100;
    }
    if slots.len() != 384 {
        return 101;
    }
    if list.len() < 132 {
        return 102;
    }
    let agents = slots::read_slots(slots);
    let a = runtime::retire(pack, store, &agents, &worklist::read_list(list), floor);
    answers::write_answer(answer, a)
}

// The reply of a booked request, worked out from the log, or that the log doesn't lead to it yet.
pub fn sarthule_reply(pack: &[u8], store: &[u8], id: u32, answer: &mut [u8]) -> u32
    ensures { ReplyTold pack.now store.now answer.old id result answer.new }
{
    if answer.len() < 12 {
        return 100;
    }
    let known = match runtime::reply(pack, store, id) {
        Ok(known) => known,
        Err(no) => return answers::write_answer(answer, Err(no)),
    };
    match known {
        Some(value) => answers::write_answer(answer, Ok(Accepted::Reply { id, value })),
        None => {
            answers::write_answer(answer, Ok(Accepted::Done));
            5
        }
    }
}
