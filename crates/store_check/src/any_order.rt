// Questions 9 to 12, of 11 all but the rising keys, put to any bytes: what is asked of a store whose rows are to be put in order.
ghost use Rattle.std.specs.Prelude.{true, ◌||◌, ◌≡◌, ◌+◌, ◌-◌, ◌*◌, ◌%◌, ◌≤◌, ◌<◌, eqb, length, get_or};
ghost use Rattle.words.specs.Words.{le, fields};
ghost use Rattle.questions.specs.Verdicts.{verdict_of};
ghost use Rattle.keys.specs.Keys.{booked_id, is_floor_key, floor_at};
ghost use Rattle.store.specs.Layout.{parts_of};
ghost use Rattle.store.specs.Rows.{lookup};
ghost use Rattle.store.specs.Questions.{member, keys_apart, part_ok_by, all_in, five, book_ok, from_floor};
ghost use Rattle.store.specs.Questions.{question11_in_any_order, question12, order_refusal};
ghost use Rattle.store.specs.Sound.{Dimensions, Formed};
ghost use Rattle.store_check.specs.Places.{keys_of, pairs_of};

use crate::check_shape;
use crate::rows::Rows;
use questions::{Verdict, ask};
use store::head::partition_count;

// Is `key` among the used keys from row `first` on, in whatever order they stand? All may have to be read.
fn has_from(rows: &Rows<'_>, first: usize, key: u64) -> bool
    requires { (first ≤ rows.now.used) × (rows.now.used ≤ rows.now.cap) }
    ensures { result ≡ member key (fields 8 rows.now.store.now (rows.now.keys_at + 8 * first) (rows.now.used - first)) }
{
    (first..rows.used).any(|row| rows.key(row) == key)
}

// The same. Each of the keys from row `first` on has `mark` at its place in `marks`, so a key whose place has no such mark is not among
// them, and nothing is sought. 65,536 leaves 104 by 8,179: the log keys of ids in a row have places of their own.
fn seen(rows: &Rows<'_>, first: usize, key: u64, marks: &[u8], mark: u8) -> bool
    requires bounds { (first ≤ rows.now.used) × (rows.now.used ≤ rows.now.cap) × (8179 ≤ length marks.now) }
    requires marked { all_in (λ k. eqb (get_or marks.now (k % 8179) 0) mark)
        (fields 8 rows.now.store.now (rows.now.keys_at + 8 * first) (rows.now.used - first)) ≡ true }
    ensures { result ≡ member key (fields 8 rows.now.store.now (rows.now.keys_at + 8 * first) (rows.now.used - first)) }
{
    marks[(key % 8179) as usize] == mark && has_from(rows, first, key)
}

// Are the keys of a form, and each unlike the others? The walk goes from the last key to the first, and each key that is passed leaves
// `mark` at its place in `marks`. What stood there is free: an equal mark costs a search, and no more.
fn keys_apart(rows: &Rows<'_>, book: bool, marks: &mut [u8], mark: u8) -> bool
    requires { (rows.now.used ≤ rows.now.cap) × (8179 ≤ length marks.old) }
    ensures { result ≡ keys_apart book (keys_of rows.now) }
{
    for row in (0..rows.used).rev() {
        let key = rows.key(row);
        if !keys::of_form(book, key) || seen(rows, row + 1, key, marks, mark) {
            return false;
        }
        marks[(key % 8179) as usize] = mark;
    }
    true
}

// Question 11 of a partition, but not whether its keys rise. Each key leaves its mark in `marks`: the partition's number and 1.
fn part_apart(store: &[u8], partition: usize, marks: &mut [u8]) -> bool
    requires { Dimensions store.now × (partition ≤ parts_of store.now) × (8179 ≤ length marks.old) }
    ensures { result ≡ part_ok_by keys_apart store.now partition }
{
    let rows = Rows::of(store, partition);
    let book = partition == partition_count(store);
    rows.filled() && keys_apart(&rows, book, marks, (partition + 1) as u8)
}

// The same of each partition. One table of marks serves them all.
#[tactic(auto, using(crate::proofs::Ranges::each_on), unfolding(store::specs::Questions::question11_in_any_order))]
fn check_each(store: &[u8], marks: &mut [u8]) -> bool
    requires { Dimensions store.now × (8179 ≤ length marks.old) }
    ensures { result ≡ question11_in_any_order store.now }
{
    for partition in 0..partition_count(store) + 1 {
        if !part_apart(store, partition, marks) {
            return false;
        }
    }
    true
}

// Question 11, but not whether the keys rise.
fn check_partitions(store: &[u8]) -> bool
    requires { Dimensions store.now }
    ensures { result ≡ question11_in_any_order store.now }
{
    let mut marks = [0u8; 8179];
    check_each(store, &mut marks)
}

// Is `key` among the used keys? Row `near` is looked at first: where five rows stand together, no search is made.
fn has(rows: &Rows<'_>, near: usize, key: u64) -> bool
    requires { rows.now.used ≤ rows.now.cap }
    ensures { result ≡ member key (keys_of rows.now) }
{
    near < rows.used && rows.key(near) == key || has_from(rows, 0, key)
}

// Are all five book keys of the id of `key` there? They are likely to stand from row `first` on.
fn five_rows(rows: &Rows<'_>, first: usize, key: u64) -> bool
    requires { (rows.now.used ≤ rows.now.cap) × (first ≤ rows.now.used) }
    ensures { result ≡ five (keys_of rows.now) (booked_id key) }
{
    (0..5).all(|number| has(rows, first + number, keys::beside(key, number as u64)))
}

// Is the key of row `row` the floor's, or of an id that has all five rows, wherever they stand?
fn row_whole(rows: &Rows<'_>, row: usize) -> bool
    requires { (rows.now.used ≤ rows.now.cap) × (row < rows.now.used) }
    ensures { result ≡ (is_floor_key (le 8 rows.now.store.now (rows.now.keys_at + 8 * row))
        || five (keys_of rows.now) (booked_id (le 8 rows.now.store.now (rows.now.keys_at + 8 * row)))) }
{
    let key = rows.key(row);
    keys::is_floor(key) || five_rows(rows, row.saturating_sub(keys::book_row(key) as usize), key)
}

// Has each booked id all five rows?
fn book_whole(rows: &Rows<'_>) -> bool
    requires { rows.now.used ≤ rows.now.cap }
    ensures { result ≡ book_ok (keys_of rows.now) }
{
    (0..rows.used).all(|row| row_whole(rows, row))
}

// The floor of a book.
fn floor_of(rows: &Rows<'_>) -> u32
    requires { rows.now.used ≤ rows.now.cap }
    ensures { result ≡ floor_at (λ k. lookup k (pairs_of rows.now)) }
{
    let floor = keys::floor_key();
    match (0..rows.used).find(|row| rows.key(*row) == floor) {
        Some(row) => rows.value(row),
        None => 0,
    }
}

// Is no id below `floor`? The floor's own key is passed over: the number that stands in the place of its id has more than 32 bits.
fn none_below(rows: &Rows<'_>, floor: u32) -> bool
    requires { rows.now.used ≤ rows.now.cap }
    ensures { result ≡ from_floor floor (keys_of rows.now) }
{
    (0..rows.used).all(|row| floor as u64 <= keys::booked_id(rows.key(row)))
}

// Question 12 of a book in any order.
fn check_book(store: &[u8]) -> bool
    requires { Formed store.now }
    ensures { result ≡ question12 store.now }
{
    let rows = Rows::of(store, partition_count(store));
    book_whole(&rows) && none_below(&rows, floor_of(&rows))
}

// The first no among questions 9 to 12, of 11 all but the rising keys.
#[tactic(auto, unfolding(store::specs::Questions::order_refusal, questions::specs::Questions::ask))]
pub fn check_in_any_order(store: &[u8]) -> Verdict
    ensures { result ≡ verdict_of (order_refusal store.now) }
{
    check_shape(store)?;
    ask(11, check_partitions(store))?;
    ask(12, check_book(store))
}
