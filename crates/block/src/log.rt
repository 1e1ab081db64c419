// The log row of a step of a request.
ghost use Rattle.std.specs.Prelude.{◌≡◌, ◌≤◌};
ghost use Rattle.keys.specs.Keys.{log_key};
ghost use Rattle.store.specs.Layout.{parts_of};
ghost use Rattle.store.specs.Rows.{rows_of, keys_in};
ghost use Rattle.store.specs.Answers.{found_in};
ghost use Rattle.store.specs.Sound.{Sound};

use store::rows::Found;

// Where it stands in a partition, or where it belongs.
pub(crate) fn log_row(store: &[u8], partition: usize, id: u32, step: u16) -> Found
    requires { Sound store.now × (partition ≤ parts_of store.now) }
    ensures { result ≡ found_in (log_key id step) (keys_in (rows_of store.now partition)) }
{
    let key = keys::log_key(id, step);
    store::rows::find(store, partition, 0, key)
}
