// The book as it is read: what it has of an id.
#![tactic(auto)]

ghost use Rattle.std.specs.Prelude.{◌≡◌, ◌^◌, ◌≤◌, ◌<◌};
ghost use Rattle.agents.specs.Requests.{asked};
ghost use Rattle.keys.specs.Keys.{book_key, floor_at};
ghost use Rattle.store.specs.Rows.{lookup, keys_in};
ghost use Rattle.store.specs.Answers.{found_in, got_of};
ghost use Rattle.store.specs.Sound.{Sound};
ghost use Rattle.contents.specs.Contents.{book_rows, value_in, arguments_of};
ghost use Rattle.book.specs.Book.{argument_of};

use agents::Request;
use store::rows::Found;

// Where the row stands that has an id's workflow, or where it belongs.
pub fn booked_row(store: &[u8], id: u32) -> Found
    requires { Sound store.now }
    ensures { (result ≡ found_in (book_key id 0) (keys_in (book_rows store.now))) × (id < 2 ^ 32) }
{
    let book = store::head::partition_count(store);
    let key = keys::book_key(id, 0);
    store::rows::find(store, book, 0, key)
}

// The workflow that the book has of an id, if it is booked.
pub fn booked_workflow(store: &[u8], id: u32) -> Option<u32>
    requires { Sound store.now }
    ensures { (result ≡ got_of (lookup (book_key id 0) (book_rows store.now))) × (id < 2 ^ 32) }
{
    let book = store::head::partition_count(store);
    let key = keys::book_key(id, 0);
    store::rows::get(store, book, key)
}

// Argument j of a booked id, 1 to 4.
fn argument(store: &[u8], id: u32, j: u64) -> u32
    requires { Sound store.now × (j ≤ 4) }
    ensures { result ≡ argument_of store.now id j }
{
    let book = store::head::partition_count(store);
    let key = keys::book_key(id, j);
    store::rows::get(store, book, key).unwrap_or(0)
}

// The request of a booked id. Its workflow is known from the search for it; the arguments are read.
pub fn booked_request(store: &[u8], id: u32, workflow: u32) -> Request
    requires { Sound store.now }
    ensures { asked result ≡ record { workflow = workflow; arguments = arguments_of (value_in (book_rows store.now)) id } }
{
    Request {
        workflow,
        a0: argument(store, id, 1),
        a1: argument(store, id, 2),
        a2: argument(store, id, 3),
        a3: argument(store, id, 4),
    }
}

// The floor: the value of the floor's row, or 0 where there is none. The keys rise, and no key of the book is greater: it is the last row.
pub fn floor(store: &[u8]) -> u32
    requires { Sound store.now }
    ensures { result ≡ floor_at (value_in (book_rows store.now)) }
{
    let book = store::head::partition_count(store);
    let rows = store::head::used_count(store, book);
    if rows == 0 {
        return 0;
    }
    let last = rows - 1;
    let place = store::head::key_place(store, book, last);
    if keys::is_floor(words::read64(store, place)) {
        return store::rows::value_at(store, book, last);
    }
    0
}
