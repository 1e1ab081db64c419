// Rows by key: one search, and the value found.
ghost use Rattle.std.specs.Prelude.{◌≡◌, ◌+◌, ◌*◌, ◌≤◌, ◌<◌, length, get_or, drop};
ghost use Rattle.words.specs.Words.{fields};
ghost use Rattle.store.specs.Layout.{parts_of};
ghost use Rattle.store.specs.Rows.{rows_of, keys_in, lookup};
ghost use Rattle.store.specs.Answers.{Searched, ended_at, rows_found, got_of};
ghost use Rattle.store.specs.Sound.{Formed, Sound};

use crate::head::{key_place, used_count, value_place};

// The row of a key, or as an error the place where the key belongs: as the library's `binary_search` answers.
pub type Found = Result<usize, usize>;

// The place of `key` among `count` keys, the first of which begins at byte `keys_at`, or where it belongs. The first key that isn't smaller
// ends the search.
fn search(store: &[u8], keys_at: usize, count: usize, key: u64) -> Found
    requires { keys_at + 8 * count ≤ length store.now }
    ensures { Searched key (fields 8 store.now keys_at count) result }
{
    for place in 0..count {
        let next = words::read64(store, keys_at + 8 * place);
        if key <= next {
            if key == next {
                return Ok(place);
            }
            return Err(place);
        }
    }
    Err(count)
}

// The row of `key` among those of a partition from row `row` on, or the place where it belongs among them. Places count from row `row`. The
// byte at which that row's key begins is worked out here, once for a search.
pub fn find(store: &[u8], partition: usize, row: usize, key: u64) -> Found
    requires { Formed store.now × (partition ≤ parts_of store.now) × (row ≤ length (rows_of store.now partition)) }
    ensures { Searched key (keys_in (drop row (rows_of store.now partition))) result }
{
    let used = used_count(store, partition);
    let keys_at = key_place(store, partition, row);
    search(store, keys_at, used - row, key)
}

// Where a search ended.
#[tactic(auto, unfolding(crate::specs::Answers::ended_at))]
pub fn ended_at(found: Found) -> usize
    ensures { result ≡ ended_at found }
{
    match found {
        Ok(place) | Err(place) => place,
    }
}

// 1 where the key's row was found, else 0.
#[tactic(auto, unfolding(crate::specs::Answers::rows_found))]
pub fn rows_found(found: Found) -> usize
    ensures { result ≡ rows_found found }
{
    found.is_ok() as usize
}

// The value of a row.
pub fn value_at(store: &[u8], partition: usize, row: usize) -> u32
    requires { Sound store.now × (partition ≤ parts_of store.now) × (row < length (rows_of store.now partition)) }
    ensures { result ≡ (get_or (rows_of store.now partition) row (0, 0)).1 }
{
    let place = value_place(store, partition, row);
    words::read32(store, place)
}

// The value at `key` in a partition.
pub fn get(store: &[u8], partition: usize, key: u64) -> Option<u32>
    requires { Sound store.now × (partition ≤ parts_of store.now) }
    ensures { result ≡ got_of (lookup key (rows_of store.now partition)) }
{
    match find(store, partition, 0, key) {
        Ok(row) => Some(value_at(store, partition, row)),
        Err(_) => None,
    }
}
