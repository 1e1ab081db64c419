// A request in the book: compared with what arrives, and written.
#![tactic(auto)]

ghost use Rattle.std.specs.Prelude.{Err, ◌≡◌, length, ◌≤◌};
ghost use Rattle.std.proofs.Math.Option.{none};
ghost use Rattle.agents.specs.Requests.{asked};
ghost use Rattle.contents.specs.Contents.{book_rows, value_in};
ghost use Rattle.keys.specs.Keys.{book_key, floor_at};
ghost use Rattle.store.specs.Layout.{parts_of, cap_of};
ghost use Rattle.store.specs.Rows.{keys_in};
ghost use Rattle.store.specs.Answers.{found_in};
ghost use Rattle.store.specs.Sound.{Sound, Stored};
ghost use Rattle.store.specs.Questions.{store_refusal};
ghost use Rattle.booking.specs.Booking.{with_request, Booked};

use agents::Request;
use questions::{Verdict, ask};

// The five rows of a request are written, all at once; there is room for them. The first is new and belongs at row `place` of the book,
// where the search for it ended.
fn write_request(store: &mut [u8], place: usize, id: u32, q: Request)
    requires { Sound store.old × (found_in (book_key id 0) (keys_in (book_rows store.old)) ≡ Err place)
        × (length (with_request id (asked q) (book_rows store.old)) ≤ cap_of store.old) }
    ensures { Stored store.old store.new (parts_of store.old) (with_request id (asked q)) }
{
    let book = store::head::partition_count(store);
    let keys = keys::book_keys(id);
    let values = [q.workflow, q.a0, q.a1, q.a2, q.a3];
    store_write::put_all(store, book, place, &keys, &values);
}

// Questions 18 and 19 of an id that isn't below the floor; then a new id is booked, and a known one stays as it is.
pub fn book_request(store: &mut [u8], id: u32, q: Request) -> Verdict
    requires { (store_refusal store.old ≡ none) × (floor_at (value_in (book_rows store.old)) ≤ id) }
    ensures { Booked store.old store.new id (asked q) result }
{
    let book = store::head::partition_count(store);
    match book::booked_row(store, id) {
        Ok(row) => {
            let workflow = store::rows::value_at(store, book, row);
            let known = book::booked_request(store, id, workflow);
            ask(18, q == known)
        }
        Err(place) => {
            let used = store::head::used_count(store, book);
            ask(19, used + 5 <= store::head::capacity(store))?;
            write_request(store, place, id, q);
            Ok(())
        }
    }
}
