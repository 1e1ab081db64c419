// Questions 13 and 14 to lent bytes and agent records, and the first no of 1 to 13, of 1 to 16, and of 1 to 14 and 25.
#![tactic(auto)]

ghost use Rattle.std.specs.Prelude.{ℕ, ◌≡◌, true, ◌+◌, ◌≤◌, ◌<◌, length, get_or};
ghost use Rattle.std.proofs.Math.Option.{none};
ghost use Rattle.contents.specs.Contents.{value_in, book_of, book_rows};
ghost use Rattle.words.specs.Words.{le};
ghost use Rattle.pack.specs.Laid.{Laid};
ghost use Rattle.questions.specs.Verdicts.{verdict_of};
ghost use Rattle.pack.specs.Refusal.{pack_refusal};
ghost use Rattle.store.specs.Sound.{Sound};
ghost use Rattle.meaning.specs.Questions.{books_below, opens_below, booked_right, opens_right, question13};
ghost use Rattle.meaning.specs.Questions.{is_sound, slot_right, question14, first_thirteen, lent_refusal};
ghost use Rattle.meaning.specs.Questions.{list_refusal, first_sixteen};
ghost use Rattle.worklist.specs.declared.Worklist.{Worklist};
ghost use Rattle.agents.specs.Slots.{agent_at};

use agents::Agent;
use questions::{Verdict, ask};
use worklist::Worklist;

// Has a row of the book, if it is one of a workflow's number, a number below m? `workflows` is m, how many the pack has.
#[tactic(auto, unfolding(meaning::specs::Questions::books_below))]
fn books_below(workflows: u32, key: u64, value: u32) -> bool
    ensures { result ≡ books_below workflows (key, value) }
{
    !keys::is_workflow(key) || value < workflows
}

// Is each booked workflow below m? The book's place is worked out once: a row's key is 8 bytes behind the one ahead of it, its value 4.
fn booked_right(pack: &[u8], store: &[u8]) -> bool
    requires { Laid pack.now × Sound store.now }
    ensures { result ≡ booked_right pack.now store.now }
{
    let workflows = pack::count_of(pack);
    let book = store::head::partition_count(store);
    let rows = store::head::used_count(store, book);
    let keys_at = store::head::key_place(store, book, 0);
    let values_at = store::head::value_place(store, book, 0);
    for row in 0..rows {
        let key = words::read64(store, keys_at + 8 * row);
        let value = words::read32(store, values_at + 4 * row);
        if !books_below(workflows, key, value) {
            return false;
        }
    }
    true
}

// Is an instruction, if it is BEGIN, one of a partition below P? In the pack its operation byte stands at `byte`, and its operand word
// begins at `word`. `partitions` is P.
#[tactic(auto, unfolding(meaning::specs::Questions::opens_below))]
fn opens_below(pack: &[u8], byte: usize, word: usize, partitions: usize) -> bool
    requires { (byte + 1 ≤ length pack.now) × (word + 4 ≤ length pack.now) }
    ensures { result ≡ opens_below partitions (get_or pack.now byte 0) (le 4 pack.now word) }
{
    operation::operation_of(pack[byte]) != operation::BEGIN
        || (words::read32(pack, word) as usize) < partitions
}

// Is each BEGIN's partition below P?
fn opens_right(pack: &[u8], store: &[u8]) -> bool
    requires { Laid pack.now × Sound store.now }
    ensures { result ≡ opens_right pack.now store.now }
{
    let workflows = pack[0] as usize;
    let instructions = pack::first_of(pack, workflows);
    let partitions = store::head::partition_count(store);
    let bytes = 1 + 2 * workflows;
    let words = bytes + instructions;
    for instruction in 0..instructions {
        if !opens_below(
            pack,
            bytes + instruction,
            words + 4 * instruction,
            partitions,
        ) {
            return false;
        }
    }
    true
}

// Question 13.
#[tactic(auto, unfolding(meaning::specs::Questions::question13))]
fn check_13(pack: &[u8], store: &[u8]) -> bool
    requires { Laid pack.now × Sound store.now }
    ensures { result ≡ question13 pack.now store.now }
{
    booked_right(pack, store) && opens_right(pack, store)
}

// Is a record that is in use sound?
fn sound(pack: &[u8], store: &[u8], a: Agent) -> bool
    requires { Laid pack.now × Sound store.now × (booked_right pack.now store.now ≡ true) }
    ensures { result ≡ is_sound pack.now a (book_of (value_in (book_rows store.now)) a.id) }
{
    let Some(workflow) = book::booked_workflow(store, a.id) else {
        return false;
    };
    let ops = pack::operations_part(pack, workflow as usize);
    let position = a.position as usize;
    if ops.len() <= position {
        return false;
    }
    !code::is_inside(ops, 0, position) && a.step <= a.position
}

// Is a slot empty or sound?
fn slot_right(pack: &[u8], store: &[u8], a: Agent) -> bool
    requires { Laid pack.now × Sound store.now × (booked_right pack.now store.now ≡ true) }
    ensures { result ≡ slot_right pack.now store.now a }
{
    if a.in_use {
        return sound(pack, store, a);
    }
    agents::is_blank(a)
}

// Question 14.
fn check_14(pack: &[u8], store: &[u8], agents: &[Agent; 8]) -> bool
    requires { Laid pack.now × Sound store.now × (booked_right pack.now store.now ≡ true) }
    ensures { result ≡ question14 pack.now store.now agents.now }
{
    agents.iter().all(|a| slot_right(pack, store, *a))
}

// Questions 1 to 13, which the reading of a reply puts: the first no.
pub fn check_to_13(pack: &[u8], store: &[u8]) -> Verdict
    ensures { result ≡ verdict_of (first_thirteen pack.now store.now) }
{
    pack::check(pack)?;
    store_check::check_store(store)?;
    ask(13, check_13(pack, store))
}

// Questions 1 to 14: the first no. The worklist is none of theirs, so it may be any.
fn check_lent(pack: &[u8], store: &[u8], agents: &[Agent; 8]) -> Verdict
    ensures { (list : Worklist) →
        result ≡ verdict_of (lent_refusal pack.now (record { store = store.now; records = agents.now; list = list })) }
{
    check_to_13(pack, store)?;
    ask(14, check_14(pack, store, agents))
}

// Questions 1 to 14 and 25, with which add, take and done begin: the first no.
pub fn check_to_25(pack: &[u8], store: &[u8], agents: &[Agent; 8], list: &Worklist) -> Verdict
    ensures { result
        ≡ verdict_of (list_refusal pack.now (record { store = store.now; records = agents.now; list = list.now })) }
{
    check_lent(pack, store, agents)?;
    ask(25, worklist::is_right(*list))
}

// Questions 1 to 16, with which arrival, retry, turn and crash begin: the first no. `used` is what 16 wants of the slot.
#[tactic(auto, unfolding(questions::specs::Questions::ask))]
pub fn check_to_16(
    pack: &[u8],
    store: &[u8],
    agents: &[Agent; 8],
    slot: usize,
    used: bool,
) -> Verdict
    ensures first_no { (list : Worklist) → result
        ≡ verdict_of (first_sixteen pack.now (record { store = store.now; records = agents.now; list = list }) slot used) }
    ensures registers { (slot : ℕ) → slot < 8 → length (agent_at agents.now slot).registers ≡ 8 }
{
    agents::eight_registers(*agents);
    check_lent(pack, store, agents)?;
    ask(15, slot < 8)?;
    ask(16, agents[slot].in_use == used)
}
