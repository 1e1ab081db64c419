// A block as a whole: its log row is sought, or it is run and its rows are written together.
ghost use Rattle.std.proofs.Math.Option.{none};
ghost use Rattle.std.specs.Prelude.{Err, ◌≡◌, ◌<◌};
ghost use Rattle.contents.specs.Contents.{value_in};
ghost use Rattle.keys.specs.Keys.{log_key, log_of};
ghost use Rattle.store.specs.Layout.{parts_of};
ghost use Rattle.store.specs.Rows.{rows_of, keys_in};
ghost use Rattle.store.specs.Answers.{found_in};
ghost use Rattle.store.specs.Sound.{Sound};
ghost use Rattle.instruction.specs.Pending.{Kept};
ghost use Rattle.block.specs.Run.{block_of};
ghost use Rattle.block.specs.Through.{Ready, block_at, Through};

use crate::log::log_row;
use crate::run::{Ran, run};
use instruction::pending::insert_row;

// A no to question 21: the partition has fewer free rows than the block needs.
#[derive(Clone, Copy, Debug, PartialEq, Eq)]
pub struct NoRoom;

// The log row of a block and behind it its PUTs, by rising key, written together if there is room for all: that is question 21. The log row
// is new and belongs at row `place`, where the search for it ended.
fn commit(
    store: &mut [u8],
    partition: usize,
    place: usize,
    ran: Ran,
    id: u32,
    step: u16,
) -> Result<u32, NoRoom>
    requires { Sound store.old × (partition < parts_of store.old) × Kept ran.pending
        × (found_in (log_key id step) (keys_in (rows_of store.old partition)) ≡ Err place) }
    ensures { Through store.old store.new partition id step
        (block_of (rows_of store.old partition) ran) result none }
{
    let log = keys::log_key(id, step);
    let pending = ran.pending;
    let rows = insert_row(pending, 0, log, ran.result);
    let count = rows.count;
    let keys = rows.keys;
    let values = rows.values;
    if store_write::put_all(store, partition, place, &keys[..count], &values[..count]) {
        return Ok(ran.result);
    }
    Err(NoRoom)
}

// A block that isn't logged: it is run, and written if there is room. Its log row belongs at row `place`.
fn run_and_write(
    ops: &[u8],
    operands: &[u8],
    store: &mut [u8],
    partition: usize,
    begin: usize,
    registers: [u32; 8],
    id: u32,
    step: u16,
    place: usize,
) -> Result<u32, NoRoom>
    requires ready { Ready ops.now operands.now store.old partition begin }
    requires belongs { found_in (log_key id step) (keys_in (rows_of store.old partition)) ≡ Err place }
    ensures { Through store.old store.new partition id step
        (block_at ops.now operands.now store.old partition begin registers) result none }
{
    let ran = run(ops, operands, store, partition, begin, registers);
    commit(store, partition, place, ran, id, step)
}

// The block that BEGIN at `begin` opens, for a step of a request. A logged one is not run again and changes no row.
pub fn through_block(
    ops: &[u8],
    operands: &[u8],
    store: &mut [u8],
    partition: usize,
    begin: usize,
    registers: [u32; 8],
    id: u32,
    step: u16,
) -> Result<u32, NoRoom>
    requires { Ready ops.now operands.now store.old partition begin }
    ensures { Through store.old store.new partition id step
        (block_at ops.now operands.now store.old partition begin registers) result
        (log_of (value_in (rows_of store.old partition)) id step) }
{
    match log_row(store, partition, id, step) {
        Ok(row) => Ok(store::rows::value_at(store, partition, row)),
        Err(place) => run_and_write(
            ops, operands, store, partition, begin, registers, id, step, place,
        ),
    }
}
