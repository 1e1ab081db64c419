// One partition by itself, in a buffer of 2 + 12C bytes: used count, keys, values, as they stand in a store one behind the other. Rows are
// put into it one behind the other; it is written to the store in one place.
ghost use Rattle.std.specs.Prelude.{List, [], ◌∷◌, ◌++◌, ◌≡◌, ◌+◌, ◌≤◌, ◌<◌, length, take, drop};
ghost use Rattle.store.specs.Layout.{parts_of, cap_of};
ghost use Rattle.store.specs.Parts.{part_size, with_part, Holds};
ghost use Rattle.store.specs.Rows.{Row, rows_of};
ghost use Rattle.store.specs.Sound.{Dimensions, Formed};

use crate::bytes::copy_bytes;
use store::head::{capacity, key_place, value_place};

// Copies `rows` rows of a partition of a store, from row `row` on, behind the first `held` rows of the buffer.
pub(crate) fn copy_rows(
    part: &mut [u8],
    held: usize,
    store: &[u8],
    partition: usize,
    row: usize,
    rows: usize,
)
    requires { Formed store.now × (partition ≤ parts_of store.now) × (row + rows ≤ length (rows_of store.now partition))
        × (held + rows ≤ cap_of store.now) × (length part.old ≡ part_size (cap_of store.now)) }
    ensures { (rs : List Row) → Holds (cap_of store.now) part.old held rs →
        Holds (cap_of store.now) part.new (held + rows)
        (rs ++ take rows (drop row (rows_of store.now partition))) }
{
    let cap = capacity(store);
    let keys_at = key_place(store, partition, row);
    let values_at = value_place(store, partition, row);
    copy_bytes(part, 2 + 8 * held, store, keys_at, 8 * rows);
    copy_bytes(part, 2 + 8 * cap + 4 * held, store, values_at, 4 * rows);
}

// Puts a row behind the first `held` rows of the buffer, which has room for `cap`.
pub fn add_row(part: &mut [u8], cap: usize, held: usize, key: u64, value: u32)
    requires { (length part.old ≡ part_size cap) × (held < cap) × (cap ≤ 256) }
    ensures { (rs : List Row) → Holds cap part.old held rs →
        Holds cap part.new (held + 1) (rs ++ (key, value) ∷ []) }
{
    words::write64(part, 2 + 8 * held, key);
    words::write32(part, 2 + 8 * cap + 4 * held, value);
}

// Writes the buffer to a partition of the store: its used count, all its keys, all its values. Every change of a row is written here.
pub fn copy_back(store: &mut [u8], partition: usize, part: &[u8])
    requires { Dimensions store.old × (partition ≤ parts_of store.old) × (length part.now ≡ part_size (cap_of store.old)) }
    ensures { store.new
        ≡ with_part (parts_of store.old) (cap_of store.old) partition part.now store.old }
{
    let cap = capacity(store);
    let keys_at = key_place(store, partition, 0);
    let values_at = value_place(store, partition, 0);
    copy_bytes(store, 3 + 2 * partition, part, 0, 2);
    copy_bytes(store, keys_at, part, 2, 8 * cap);
    copy_bytes(store, values_at, part, 2 + 8 * cap, 4 * cap);
}
