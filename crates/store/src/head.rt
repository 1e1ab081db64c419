// P, C, the used counts, and the places of rows.
ghost use Rattle.std.specs.Prelude.{◌≡◌, ◌+◌, ◌*◌, ◌≤◌, length};
ghost use Rattle.store.specs.Layout.{parts_of, cap_of, store_length, key_at, value_at};
ghost use Rattle.store.specs.Rows.{rows_of};
ghost use Rattle.store.specs.Questions.{numbers_right};
ghost use Rattle.store.specs.Sound.{Dimensions};

// Is P 1 to 8, and C 5 to 256?
pub fn numbers_right(parts: usize, cap: usize) -> bool
    ensures { result ≡ numbers_right parts cap }
{
    if parts < 1 {
        return false;
    }
    if 8 < parts {
        return false;
    }
    if cap < 5 {
        return false;
    }
    cap <= 256
}

// P.
pub fn partition_count(store: &[u8]) -> usize
    requires { 3 ≤ length store.now }
    ensures { result ≡ parts_of store.now }
{
    store[0] as usize
}

// C.
pub fn capacity(store: &[u8]) -> usize
    requires { 3 ≤ length store.now }
    ensures { result ≡ cap_of store.now }
{
    words::read16(store, 1) as usize
}

// How many rows a partition has.
pub fn used_count(store: &[u8], partition: usize) -> usize
    requires { Dimensions store.now × (partition ≤ parts_of store.now) }
    ensures { result ≡ length (rows_of store.now partition) }
{
    words::read16(store, 3 + 2 * partition) as usize
}

// How many rows there is room for in so many partitions.
fn times(partitions: usize, cap: usize) -> usize
    requires { (partitions ≤ 9) × (cap ≤ 256) }
    ensures { (result ≡ partitions * cap) × (result ≤ 2304) }
{
    partitions * cap
}

// The length of a store.
pub fn store_size(parts: usize, cap: usize) -> usize
    requires { (parts ≤ 8) × (cap ≤ 256) }
    ensures { result ≡ store_length parts cap }
{
    3 + 2 * (parts + 1) + 12 * times(parts + 1, cap)
}

// The byte at which the key of a row begins.
pub fn key_place(store: &[u8], partition: usize, row: usize) -> usize
    requires { Dimensions store.now × (partition ≤ parts_of store.now) × (row ≤ cap_of store.now) }
    ensures { result ≡ key_at store.now partition row }
{
    let parts = partition_count(store);
    let cap = capacity(store);
    3 + 2 * (parts + 1) + 8 * (times(partition, cap) + row)
}

// The byte at which the value of a row begins.
pub fn value_place(store: &[u8], partition: usize, row: usize) -> usize
    requires { Dimensions store.now × (partition ≤ parts_of store.now) × (row ≤ cap_of store.now) }
    ensures { result ≡ value_at store.now partition row }
{
    let parts = partition_count(store);
    let cap = capacity(store);
    3 + 2 * (parts + 1) + 8 * times(parts + 1, cap) + 4 * (times(partition, cap) + row)
}
