// Questions 9 to 12, put to any bytes. The rows of a partition stand by rising key.
#![tactic(auto)]

pub mod any_order;
pub mod rows;

ghost use Rattle.std.specs.Prelude.{true, ◌&&◌, ◌≡◌, ◌+◌, ◌-◌, ◌*◌, ◌≤◌, leb, length};
ghost use Rattle.std.proofs.Math.Option.{none};
ghost use Rattle.words.specs.Words.{fields};
ghost use Rattle.questions.specs.Basics.{each_from};
ghost use Rattle.questions.specs.Questions.{number, ask};
ghost use Rattle.questions.specs.Verdicts.{verdict_of};
ghost use Rattle.keys.specs.Keys.{floor_at};
ghost use Rattle.store.specs.Layout.{parts_of};
ghost use Rattle.store.specs.Rows.{lookup};
ghost use Rattle.store.specs.Questions.{keys_ok, part_ok, book_ok, from_floor, book_right};
ghost use Rattle.store.specs.Questions.{question9, question10, question11, question12, store_refusal};
ghost use Rattle.store.specs.Sound.{Dimensions, Sound};
ghost use Rattle.store_check.specs.Places.{keys_of, pairs_of};

use crate::rows::Rows;
use questions::{Verdict, ask};
use store::head::{capacity, numbers_right, partition_count, store_size};

// Question 9.
#[tactic(auto, unfolding(store::specs::Questions::question9))]
fn check_numbers(store: &[u8]) -> bool
    ensures { result ≡ question9 store.now }
{
    3 <= store.len() && numbers_right(partition_count(store), capacity(store))
}

// Question 10.
#[tactic(auto, using(crate::proofs::Asked::numbers_low), unfolding(store::specs::Questions::question10))]
fn check_length(store: &[u8]) -> bool
    requires { question9 store.now ≡ true }
    ensures { result ≡ question10 store.now }
{
    store.len() == store_size(partition_count(store), capacity(store))
}

// Questions 9 and 10: the first no among them.
#[tactic(auto, using(questions::proofs::Questions::ask_yes), unfolding(questions::specs::Questions::ask))]
fn check_shape(store: &[u8]) -> Verdict
    ensures { result
        ≡ verdict_of (ask (number 9) (question9 store.now) (ask (number 10) (question10 store.now) none)) }
{
    ask(9, check_numbers(store))?;
    ask(10, check_length(store))
}

// Are the keys of a form, and do they rise? Then each is unlike the others. `low` is the least that may come next.
#[tactic(auto, using(crate::proofs::Rising::rising_on), unfolding(crate::proofs::Rising::rises))]
fn keys_ok(rows: &Rows<'_>, book: bool) -> bool
    requires { rows.now.used ≤ rows.now.cap }
    ensures { result ≡ keys_ok book (keys_of rows.now) }
{
    let mut low = 0;
    for row in 0..rows.used {
        let key = rows.key(row);
        if key < low || !keys::of_form(book, key) {
            return false;
        }
        low = key + 1;
    }
    true
}

// Question 11 of a partition.
#[tactic(auto, using(crate::proofs::Steps::filled_fits, crate::proofs::Steps::places_part))]
fn part_ok(store: &[u8], partition: usize) -> bool
    requires { Dimensions store.now × (partition ≤ parts_of store.now) }
    ensures { result ≡ part_ok store.now partition }
{
    let rows = Rows::of(store, partition);
    let book = partition == partition_count(store);
    rows.filled() && keys_ok(&rows, book)
}

// Question 11.
fn check_partitions(store: &[u8]) -> bool
    requires { Dimensions store.now }
    ensures { result ≡ question11 store.now }
{
    (0..partition_count(store) + 1).all(|partition| part_ok(store, partition))
}

// Has each booked id all five rows, of a book that passes question 11? Rising keys have them side by side, so that the fifth key is the
// last of the first one's five. The floor's key comes last.
fn five_each(rows: &Rows<'_>) -> bool
    requires { (rows.now.used ≤ rows.now.cap) × (keys_ok true (keys_of rows.now) ≡ true) }
    ensures { result ≡ book_ok (keys_of rows.now) }
{
    for five in 0..rows.used / 5 {
        if rows.key(5 * five + 4) != keys::last_of_five(rows.key(5 * five)) {
            return false;
        }
    }
    match rows.used % 5 {
        0 => true,
        1 => keys::is_floor(rows.key(rows.used - 1)),
        _ => false,
    }
}

// The floor of such a book: no form of the book has a greater key, so its row is the last.
fn floor_of(rows: &Rows<'_>) -> u32
    requires { (rows.now.used ≤ rows.now.cap) × (keys_ok true (keys_of rows.now) ≡ true) }
    ensures { result ≡ floor_at (λ k. lookup k (pairs_of rows.now)) }
{
    if rows.used == 0 {
        return 0;
    }
    let last = rows.used - 1;
    if keys::is_floor(rows.key(last)) {
        rows.value(last)
    } else {
        0
    }
}

// Is no booked id below `floor`? Keys rise, so the first is looked at and no other.
fn from_floor(rows: &Rows<'_>, floor: u32) -> bool
    requires { (rows.now.used ≤ rows.now.cap) × (keys_ok true (keys_of rows.now) ≡ true) }
    ensures { result ≡ from_floor floor (keys_of rows.now) }
{
    rows.used == 0 || floor as u64 <= keys::booked_id(rows.key(0))
}

// Question 12.
fn check_book(store: &[u8]) -> bool
    requires { Sound store.now }
    ensures { result ≡ question12 store.now }
{
    let rows = Rows::of(store, partition_count(store));
    five_each(&rows) && from_floor(&rows, floor_of(&rows))
}

// Questions 9 to 12: the first no among them.
#[tactic(auto, unfolding(store::specs::Questions::store_refusal, questions::specs::Questions::ask))]
pub fn check_store(store: &[u8]) -> Verdict
    ensures { result ≡ verdict_of (store_refusal store.now) }
{
    check_shape(store)?;
    ask(11, check_partitions(store))?;
    ask(12, check_book(store))
}
