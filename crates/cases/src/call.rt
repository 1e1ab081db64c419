// The call of a case, made by the exported functions, as a host makes it, on a copy of its store, of its records and of its worklist.
ghost use Rattle.std.specs.Prelude.{◌≡◌, ◌≤◌, length};
ghost use Rattle.host.specs.Exports.{Exported, ListExported};
ghost use Rattle.cases.specs.Made.{call_by, OnStore, CaseMade};

use agents::Answer;

// A call that gets records and no worklist: 3 arrival, 4 retry, 5 turn, 6 crash.
fn export_call(
    pack: &[u8],
    store: &mut [u8],
    records: &mut [u8],
    call: u8,
    words: [u32; 7],
    answer: &mut [u8],
) -> u32
    requires { (3 ≤ call) × (call ≤ 6) }
    ensures { Exported pack.now store.old records.old answer.old
        (call_by call words) result store.new records.new answer.new }
{
    let slot = words[0] as usize;
    match call {
        3 => host::sarthule_arrival(
            pack, store, records, slot, words[1], words[2], words[3], words[4], words[5], words[6],
            answer,
        ),
        4 => host::sarthule_retry(pack, store, records, slot, words[1], answer),
        5 => host::sarthule_turn(pack, store, records, slot, answer),
        _ => host::sarthule_crash(pack, store, records, slot, answer),
    }
}

// A call on the worklist: 10 add, 11 take, 12 done.
fn list_call(
    pack: &[u8],
    store: &[u8],
    records: &[u8],
    list: &mut [u8],
    call: u8,
    words: [u32; 7],
    answer: &mut [u8],
) -> u32
    requires { (10 ≤ call) × (call ≤ 12) }
    ensures { ListExported pack.now store.now records.now list.old answer.old
        (call_by call words) result list.new answer.new }
{
    match call {
        10 => host::sarthule_add(pack, store, records, list, words[0], answer),
        11 => host::sarthule_take(pack, store, records, list, answer),
        _ => host::sarthule_done(pack, store, records, list, words[0], answer),
    }
}

// A call on a store: 9 order, 13 retire, those that get records, those on the worklist, and otherwise restart.
fn store_call(
    pack: &[u8],
    store: &mut [u8],
    records: &mut [u8],
    list: &mut [u8],
    call: u8,
    words: [u32; 7],
    answer: &mut [u8],
) -> u32
    requires { (3 ≤ call) × (12 ≤ length answer.old) × (length records.old ≡ 384) × (132 ≤ length list.old) }
    ensures { OnStore call words pack.now store.old records.old list.old result
        store.new records.new list.new answer.new }
{
    match call {
        3..=6 => export_call(pack, store, records, call, words, answer),
        9 => host::sarthule_order(store, answer),
        10..=12 => list_call(pack, store, records, list, call, words, answer),
        13 => host::sarthule_retire(pack, store, records, list, words[0], answer),
        _ => host::sarthule_restart(records, list, answer),
    }
}

// The call by its byte: 0 check, 1 open, 2 create, and those on a store. Its answer is what the number and the words say.
pub fn make_call(
    pack: &[u8],
    store: &mut [u8],
    records: &mut [u8],
    list: &mut [u8],
    call: u8,
    words: [u32; 7],
) -> Answer
    requires { (length records.old ≡ 384) × (132 ≤ length list.old) }
    ensures { CaseMade call words pack.now store.old records.old list.old result
        store.new records.new list.new }
{
    let mut answer = [0u8; 28];
    let number = match call {
        0 => host::sarthule_check(pack, &mut answer),
        1 => host::sarthule_open(pack, words[0], &mut answer),
        2 => host::sarthule_create(store, words[0] as usize, words[1] as usize, &mut answer),
        _ => store_call(pack, store, records, list, call, words, &mut answer),
    };
    answers::read_answer(number, &answer)
}
