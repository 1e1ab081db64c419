// The calls as a C program links them: each is the call of `host` by the same name. `include/sarthule.h` is their header.
#![tactic(auto)]

ghost use Rattle.std.specs.Prelude.{List, [], ◌∷◌, ℕ};
ghost use Rattle.rules.specs.Calls.{Call};
ghost use Rattle.pack.specs.Refusal.{pack_refusal, open_refusal};
ghost use Rattle.answers.specs.Answers.{values_of, judged};
ghost use Rattle.host.specs.Told.{opened_words, Told, FiguresTold, ReplyTold, Made};
ghost use Rattle.host.specs.Exports.{Exported, ListExported, StoreExported, Restarted, PutInOrder};

// The check of a pack.
#[unsafe(no_mangle)]
pub extern "C" fn sarthule_check(pack: &[u8], answer: &mut [u8]) -> u32
    ensures { Told 12 answer.old (judged (pack_refusal pack.now))
        (values_of (judged (pack_refusal pack.now))) result answer.new }
{
    host::sarthule_check(pack, answer)
}

// Where the parts of a workflow stand in the pack.
#[unsafe(no_mangle)]
pub extern "C" fn sarthule_open(pack: &[u8], workflow: u32, answer: &mut [u8]) -> u32
    ensures { Told 28 answer.old (judged (open_refusal pack.now workflow))
        (opened_words pack.now workflow) result answer.new }
{
    host::sarthule_open(pack, workflow, answer)
}

// How much a workflow takes: its most turns, and its most rows in each partition.
#[unsafe(no_mangle)]
pub extern "C" fn sarthule_figures(pack: &[u8], workflow: u32, answer: &mut [u8]) -> u32
    ensures { FiguresTold pack.now answer.old workflow result answer.new }
{
    host::sarthule_figures(pack, workflow, answer)
}

// Writes a fresh store.
#[unsafe(no_mangle)]
pub extern "C" fn sarthule_create(
    store: &mut [u8],
    partitions: usize,
    rows: usize,
    answer: &mut [u8],
) -> u32
    ensures { Made store.old answer.old partitions rows result store.new answer.new }
{
    host::sarthule_create(store, partitions, rows, answer)
}

// Puts the rows of an earlier store in order.
#[unsafe(no_mangle)]
pub extern "C" fn sarthule_order(store: &mut [u8], answer: &mut [u8]) -> u32
    ensures { PutInOrder store.old answer.old result store.new answer.new }
{
    host::sarthule_order(store, answer)
}

// Arrival books a new id, then starts an agent; a known id only starts one.
#[unsafe(no_mangle)]
pub extern "C" fn sarthule_arrival(
    pack: &[u8],
    store: &mut [u8],
    slots: &mut [u8],
    slot: usize,
    id: u32,
    workflow: u32,
    a0: u32,
    a1: u32,
    a2: u32,
    a3: u32,
    answer: &mut [u8],
) -> u32
    ensures { Exported pack.now store.old slots.old answer.old
        (Call.arrival slot id workflow (a0 ∷ a1 ∷ a2 ∷ a3 ∷ [])) result store.new slots.new answer.new }
{
    host::sarthule_arrival(
        pack, store, slots, slot, id, workflow, a0, a1, a2, a3, answer,
    )
}

// Retry starts an agent from the book.
#[unsafe(no_mangle)]
pub extern "C" fn sarthule_retry(
    pack: &[u8],
    store: &[u8],
    slots: &mut [u8],
    slot: usize,
    id: u32,
    answer: &mut [u8],
) -> u32
    ensures { Exported pack.now store.now slots.old answer.old
        (Call.retry slot id) result store.now slots.new answer.new }
{
    host::sarthule_retry(pack, store, slots, slot, id, answer)
}

// The agent in a slot moves on.
#[unsafe(no_mangle)]
pub extern "C" fn sarthule_turn(
    pack: &[u8],
    store: &mut [u8],
    slots: &mut [u8],
    slot: usize,
    answer: &mut [u8],
) -> u32
    ensures { Exported pack.now store.old slots.old answer.old
        (Call.turn slot) result store.new slots.new answer.new }
{
    host::sarthule_turn(pack, store, slots, slot, answer)
}

// Crash empties a slot.
#[unsafe(no_mangle)]
pub extern "C" fn sarthule_crash(
    pack: &[u8],
    store: &[u8],
    slots: &mut [u8],
    slot: usize,
    answer: &mut [u8],
) -> u32
    ensures { Exported pack.now store.now slots.old answer.old
        (Call.crash slot) result store.now slots.new answer.new }
{
    host::sarthule_crash(pack, store, slots, slot, answer)
}

// Restart empties all slots, and marks all as waiting in a worklist that passes 25.
#[unsafe(no_mangle)]
pub extern "C" fn sarthule_restart(slots: &mut [u8], list: &mut [u8], answer: &mut [u8]) -> u32
    ensures { Restarted slots.old list.old answer.old result
        slots.new list.new answer.new }
{
    host::sarthule_restart(slots, list, answer)
}

// Add puts a booked id on the worklist.
#[unsafe(no_mangle)]
pub extern "C" fn sarthule_add(
    pack: &[u8],
    store: &[u8],
    slots: &[u8],
    list: &mut [u8],
    id: u32,
    answer: &mut [u8],
) -> u32
    ensures { ListExported pack.now store.now slots.now list.old answer.old
        (Call.list_add id) result list.new answer.new }
{
    host::sarthule_add(pack, store, slots, list, id, answer)
}

// Take gives the first waiting id of the worklist, and marks it.
#[unsafe(no_mangle)]
pub extern "C" fn sarthule_take(
    pack: &[u8],
    store: &[u8],
    slots: &[u8],
    list: &mut [u8],
    answer: &mut [u8],
) -> u32
    ensures { ListExported pack.now store.now slots.now list.old answer.old
        Call.list_take result list.new answer.new }
{
    host::sarthule_take(pack, store, slots, list, answer)
}

// Done removes a taken id from the worklist, when its log leads through to RETURN.
#[unsafe(no_mangle)]
pub extern "C" fn sarthule_done(
    pack: &[u8],
    store: &[u8],
    slots: &[u8],
    list: &mut [u8],
    id: u32,
    answer: &mut [u8],
) -> u32
    ensures { ListExported pack.now store.now slots.now list.old answer.old
        (Call.list_done id) result list.new answer.new }
{
    host::sarthule_done(pack, store, slots, list, id, answer)
}

// Retire removes the book and log rows of every id below the floor.
#[unsafe(no_mangle)]
pub extern "C" fn sarthule_retire(
    pack: &[u8],
    store: &mut [u8],
    slots: &[u8],
    list: &[u8],
    floor: u32,
    answer: &mut [u8],
) -> u32
    ensures { StoreExported pack.now store.old slots.now list.now answer.old
        (Call.retire floor) result store.new answer.new }
{
    host::sarthule_retire(pack, store, slots, list, floor, answer)
}

// The reply of a booked request, worked out from the log, or that the log doesn't lead to it yet.
#[unsafe(no_mangle)]
pub extern "C" fn sarthule_reply(pack: &[u8], store: &[u8], id: u32, answer: &mut [u8]) -> u32
    ensures { ReplyTold pack.now store.now answer.old id result answer.new }
{
    host::sarthule_reply(pack, store, id, answer)
}
