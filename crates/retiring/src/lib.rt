// What retire does to the rows of a store: the book and log rows of every id below the floor are removed, booked or not, and the floor is
// kept as one extra row of the book. Data rows stay.
#![tactic(auto)]

ghost use Rattle.std.proofs.Math.Option.{none};
ghost use Rattle.std.specs.Prelude.{◌≡◌, ◌<◌};
ghost use Rattle.rules.specs.Store.{booked_below, retired};
ghost use Rattle.store.specs.Layout.{parts_of};
ghost use Rattle.store.specs.Questions.{store_refusal};
ghost use Rattle.store.specs.Rows.{store_of};
ghost use Rattle.store.specs.Sound.{Sound};
ghost use Rattle.contents.specs.Contents.{contents_of};
ghost use Rattle.contents.specs.Wrote.{Wrote};
ghost use Rattle.retiring.specs.Retiring.{LogsFrom};

use store::head::partition_count;
use store_write::keep::{keep_and_put, keep_from};

// Removes the log rows of every smaller id in the partitions below P. One that has none isn't written.
fn retire_logs(store: &mut [u8], floor: u32)
    requires { Sound store.old }
    ensures { LogsFrom floor store.old store.new (parts_of store.old) }
{
    let low = keys::log_key(floor, 0);
    for partition in 0..partition_count(store) {
        keep_from(store, partition, low);
    }
}

// Removes the book and log rows of every smaller id, and writes the floor's row: the book first, then the other partitions. Some smaller id
// is booked.
pub fn retire_rows(store: &mut [u8], floor: u32)
    requires { (store_refusal store.old ≡ none) × (0 < booked_below (contents_of (store_of store.old)) floor) }
    ensures { Wrote store.old store.new (retired (contents_of (store_of store.old)) floor) }
{
    let parts = partition_count(store);
    let low = keys::book_key(floor, 0);
    let key = keys::floor_key();
    keep_and_put(store, parts, low, key, floor);
    retire_logs(store, floor);
}
