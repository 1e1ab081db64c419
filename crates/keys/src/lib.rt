// Stored keys: each form is made, recognised and taken apart here, and nowhere else.
#![tactic(auto)]

ghost use Rattle.std.specs.Prelude.{true, ◌≡◌, ◌^◌, ◌≤◌, ◌<◌};
ghost use Rattle.keys.specs.Keys.{data_key, is_data_key, data_of, log_key, is_log_key, id_of, step_of, is_form};
ghost use Rattle.keys.specs.Keys.{book_key, is_book_key, booked_id, book_row, book_keys, is_workflow_key, last_of_five, floor_key, is_floor_key};

// The stored key of a data key.
pub fn data_key(key: u32) -> u64
    ensures { (result ≡ data_key key) × (key < 2 ^ 32) }
{
    9_223_372_036_854_775_808 + key as u64
}

// Is it the key of a data row?
pub fn is_data(stored: u64) -> bool
    ensures { result ≡ is_data_key stored }
{
    if 9_223_372_036_854_775_808 <= stored {
        return stored < 9_223_372_041_149_743_104;
    }
    false
}

// The data key of a stored one.
pub fn data_of(stored: u64) -> u64
    requires { is_data_key stored ≡ true }
    ensures { result ≡ data_of stored }
{
    stored - 9_223_372_036_854_775_808
}

// The stored key of the log row of a step.
pub fn log_key(id: u32, step: u16) -> u64
    ensures { (result ≡ log_key id step) × (id < 2 ^ 32) × (step < 65536) }
{
    id as u64 * 65_536 + step as u64
}

// Is it the key of a log row?
fn is_log(stored: u64) -> bool
    ensures { result ≡ is_log_key stored }
{
    stored < 281_474_976_710_656
}

// The id of a log row.
pub fn id_of(stored: u64) -> u64
    ensures { result ≡ id_of stored }
{
    stored / 65_536
}

// The step of a log row.
pub fn step_of(stored: u64) -> u64
    ensures { result ≡ step_of stored }
{
    stored % 65_536
}

// The stored key of a row of a request in the book: 0 its workflow, 1 to 4 its arguments.
pub fn book_key(id: u32, row: u64) -> u64
    requires { row ≤ 4 }
    ensures { (result ≡ book_key id row) × (id < 2 ^ 32) }
{
    id as u64 * 8 + row
}

// The stored keys of a request's five rows.
pub fn book_keys(id: u32) -> [u64; 5]
    ensures { (result ≡ book_keys id) × (id < 2 ^ 32) }
{
    let first = id as u64 * 8;
    [first, first + 1, first + 2, first + 3, first + 4]
}

// Is it the key of a row of the book?
fn is_book(stored: u64) -> bool
    ensures { result ≡ is_book_key stored }
{
    if stored < 34_359_738_368 {
        return stored % 8 <= 4;
    }
    false
}

// The id that a row of the book is of.
pub fn booked_id(stored: u64) -> u64
    ensures { result ≡ booked_id stored }
{
    stored / 8
}

// Which of a request's five rows a book row is.
pub fn book_row(stored: u64) -> u64
    ensures { (result ≡ book_row stored) × (result < 8) }
{
    stored % 8
}

// The key of another row of the request that a book row is of.
pub fn beside(stored: u64, row: u64) -> u64
    requires { row ≤ 4 }
    ensures { result ≡ book_key (booked_id stored) row }
{
    stored / 8 * 8 + row
}

// Has a row of the book a workflow number?
pub fn is_workflow(stored: u64) -> bool
    ensures { result ≡ is_workflow_key stored }
{
    if is_book(stored) {
        return stored % 8 == 0;
    }
    false
}

// The key of a request's last row, by that of its first.
pub fn last_of_five(first: u64) -> u64
    requires { is_book_key first ≡ true }
    ensures { result ≡ last_of_five first }
{
    first + 4
}

// The stored key of the floor.
pub fn floor_key() -> u64
    ensures { result ≡ floor_key }
{
    1_099_511_627_776
}

// Is it the key of the floor?
pub fn is_floor(stored: u64) -> bool
    ensures { result ≡ is_floor_key stored }
{
    stored == 1_099_511_627_776
}

// Is it a key of a form of the book, or of another partition?
pub fn of_form(book: bool, stored: u64) -> bool
    ensures { result ≡ is_form book stored }
{
    if book {
        if is_book(stored) {
            return true;
        }
        return is_floor(stored);
    }
    if is_data(stored) {
        return true;
    }
    is_log(stored)
}
