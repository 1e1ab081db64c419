// The rows of smaller keys removed from a partition: as keys rise, they are its first rows.
ghost use Rattle.std.specs.Prelude.{true, ◌≡◌, ◌≤◌, ◌<◌, eqb, leb, length, drop};
ghost use Rattle.keys.specs.Keys.{is_form};
ghost use Rattle.store.specs.Layout.{parts_of, cap_of};
ghost use Rattle.store.specs.Parts.{part_size};
ghost use Rattle.store.specs.Questions.{all_in};
ghost use Rattle.store.specs.Rows.{rows_of, keys_in, rows_from, put_row};
ghost use Rattle.store.specs.Sound.{Sound, Stored};

use crate::bytes::clear;
use crate::part::{add_row, copy_back, copy_rows};
use store::head::{capacity, used_count};
use store::rows::{ended_at, find};

// Leaves of a partition the rows from row `first` on, by way of a buffer as long as a partition.
fn keep_by(store: &mut [u8], partition: usize, first: usize, part: &mut [u8])
    requires { Sound store.old × (partition ≤ parts_of store.old) × (first ≤ length (rows_of store.old partition))
        × (length part.old ≡ part_size (cap_of store.old)) }
    ensures { Stored store.old store.new partition (drop first) }
{
    let rows = used_count(store, partition) - first;
    clear(part);
    copy_rows(part, 0, store, partition, first, rows);
    words::write16(part, 0, rows as u16);
    copy_back(store, partition, part);
}

// Leaves of a partition the rows with keys from `low` on. Where no key is smaller, nothing is written.
pub fn keep_from(store: &mut [u8], partition: usize, low: u64)
    requires { Sound store.old × (partition ≤ parts_of store.old) }
    ensures { Stored store.old store.new partition (rows_from low)
        × (rows_from low (rows_of store.old partition) ≡ rows_of store.old partition →
        store.new ≡ store.old) }
{
    let found = find(store, partition, 0, low);
    let first = ended_at(found);
    if first == 0 {
        return;
    }
    let mut buffer = [0u8; 3074];
    let bytes = 2 + 12 * capacity(store);
    keep_by(store, partition, first, &mut buffer[0..bytes]);
}

// Leaves of a partition the rows from row `first` on, and puts `value` at `key` behind them, by way of a buffer as long as a partition. No
// key there is greater; a row that has the key isn't copied.
fn keep_and_put_by(
    store: &mut [u8],
    partition: usize,
    first: usize,
    key: u64,
    value: u32,
    part: &mut [u8],
)
    requires sound { Sound store.old × (partition ≤ parts_of store.old) × (first ≤ length (rows_of store.old partition))
        × (length part.old ≡ part_size (cap_of store.old)) }
    requires room_behind { (length (drop first (rows_of store.old partition)) < cap_of store.old)
        × (is_form (eqb partition (parts_of store.old)) key ≡ true)
        × (all_in (λ k. leb k key) (keys_in (rows_of store.old partition)) ≡ true) }
    ensures { Stored store.old store.new partition (λ rs. put_row key value (drop first rs)) }
{
    let cap = capacity(store);
    let found = find(store, partition, first, key);
    let ahead = ended_at(found);
    clear(part);
    copy_rows(part, 0, store, partition, first, ahead);
    add_row(part, cap, ahead, key, value);
    words::write16(part, 0, (ahead + 1) as u16);
    copy_back(store, partition, part);
}

// Leaves of a partition the rows with keys from `low` on, and puts `value` at `key` behind them. There is a free row for it, and no key
// there is greater.
pub fn keep_and_put(store: &mut [u8], partition: usize, low: u64, key: u64, value: u32)
    requires sound { Sound store.old × (partition ≤ parts_of store.old) }
    requires room_behind { (length (rows_from low (rows_of store.old partition)) < cap_of store.old)
        × (is_form (eqb partition (parts_of store.old)) key ≡ true)
        × (all_in (λ k. leb k key) (keys_in (rows_of store.old partition)) ≡ true) }
    ensures { Stored store.old store.new partition (λ rs. put_row key value (rows_from low rs)) }
{
    let found = find(store, partition, 0, low);
    let first = ended_at(found);
    let mut buffer = [0u8; 3074];
    let bytes = 2 + 12 * capacity(store);
    keep_and_put_by(store, partition, first, key, value, &mut buffer[0..bytes]);
}
