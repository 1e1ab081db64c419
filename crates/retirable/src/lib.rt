// Questions 28 and 29: can each smaller booked request be retired, and is there one?
#![tactic(auto)]

ghost use Rattle.std.specs.Prelude.{true, ◌≡◌, ltb};
ghost use Rattle.std.proofs.Math.Option.{none, some};
ghost use Rattle.questions.specs.Basics.{each};
ghost use Rattle.rules.specs.Store.{Request, booked_below};
ghost use Rattle.rules.specs.Calls.{can_retire};
ghost use Rattle.rules.specs.Worklist.{list_right};
ghost use Rattle.store.specs.Rows.{keys_in, store_of};
ghost use Rattle.store.specs.Questions.{member, store_refusal};
ghost use Rattle.pack.specs.Refusal.{pack_refusal};
ghost use Rattle.pack.specs.Meaning.{pack_of};
ghost use Rattle.contents.specs.Contents.{contents_of, book_rows};
ghost use Rattle.worklist.specs.Worklist.{worklist_of};
ghost use Rattle.meaning.specs.State.{state_of};
ghost use Rattle.meaning.specs.Questions.{question13};
ghost use Rattle.retirable.specs.Retirable.{row_can};

use agents::Agent;
use logged::Logged;
use worklist::Worklist;

// Can a booked id be retired: is it in no slot, not on the worklist, and logged through? The log is followed last: it takes longest.
fn can_retire(pack: &[u8], store: &[u8], agents: [Agent; 8], list: Worklist, id: u32) -> bool
    requires { (pack_refusal pack.now ≡ none) × (store_refusal store.now ≡ none) × (question13 pack.now store.now ≡ true)
        × (list_right (worklist_of list) ≡ true) }
    ensures { (q : Request) → (contents_of (store_of store.now)).book id ≡ some q →
        result ≡ can_retire (pack_of pack.now) (state_of (record { store = store.now; records = agents; list = list })) id
        (some q) }
{
    agents::in_no_slot(agents, id)
        && !worklist::is_listed(list, id)
        && matches!(logged::reply_logged(pack, store, id), Logged::Through(_))
}

// Can the request of a book row be retired? It is asked at the row of its workflow, and other rows are passed over.
fn row_retirable(pack: &[u8], store: &[u8], agents: [Agent; 8], list: Worklist, key: u64) -> bool
    requires passes { (pack_refusal pack.now ≡ none) × (store_refusal store.now ≡ none) × (question13 pack.now store.now ≡ true)
        × (list_right (worklist_of list) ≡ true) }
    requires is_book_key { member key (keys_in (book_rows store.now)) ≡ true }
    ensures { result ≡ row_can pack.now (record { store = store.now; records = agents; list = list }) key }
{
    if keys::is_workflow(key) {
        let id = keys::booked_id(key) as u32;
        return can_retire(pack, store, agents, list, id);
    }
    true
}

// Question 28. The book's place is worked out once: a row's key is 8 bytes behind the one ahead of it. Keys rise, so the walk ends at the
// first that isn't of a smaller id.
pub fn all_retirable(
    pack: &[u8],
    store: &[u8],
    agents: [Agent; 8],
    list: Worklist,
    floor: u32,
) -> bool
    requires { (pack_refusal pack.now ≡ none) × (store_refusal store.now ≡ none) × (question13 pack.now store.now ≡ true)
        × (list_right (worklist_of list) ≡ true) }
    ensures { result ≡ each floor (λ id. can_retire (pack_of pack.now)
        (state_of (record { store = store.now; records = agents; list = list })) id
        ((state_of (record { store = store.now; records = agents; list = list })).store.book id)) }
{
    let end = keys::book_key(floor, 0);
    let book = store::head::partition_count(store);
    let rows = store::head::used_count(store, book);
    let keys_at = store::head::key_place(store, book, 0);
    for row in 0..rows {
        let key = words::read64(store, keys_at + 8 * row);
        if end <= key {
            return true;
        }
        if !row_retirable(pack, store, agents, list, key) {
            return false;
        }
    }
    true
}

// Question 29. Keys rise, so only the first is looked at: the floor's row is behind the rows of all ids.
pub fn any_below(store: &[u8], floor: u32) -> bool
    requires { store_refusal store.now ≡ none }
    ensures { result ≡ ltb 0 (booked_below (contents_of (store_of store.now)) floor) }
{
    let book = store::head::partition_count(store);
    if store::head::used_count(store, book) == 0 {
        return false;
    }
    let first = words::read64(store, store::head::key_place(store, book, 0));
    first < keys::book_key(floor, 0)
}
