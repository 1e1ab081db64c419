// The run of a block, from BEGIN to END.
ghost use Rattle.std.specs.Prelude.{◌≡◌, ◌≤◌};
ghost use Rattle.store.specs.Rows.{rows_of};
ghost use Rattle.store.specs.Layout.{parts_of};
ghost use Rattle.store.specs.Sound.{Sound};
ghost use Rattle.instruction.specs.Pending.{Kept};
ghost use Rattle.code.specs.Right.{Right};
ghost use Rattle.block.specs.Run.{Inside, run_of, block_of};
ghost use Rattle.block.specs.Through.{Ready, block_at};

use instruction::pending::{Pending, no_pending};
use instruction::{Running, Spot, step};

// A block's run that came to END: its result and its PUTs.
#[derive(Clone, Copy)]
pub(crate) struct Ran {
    pub result: u32,
    pub pending: Pending,
}

// From a place inside a block until END. A workflow that passes the check never runs past its last instruction.
fn run_on(ops: &[u8], operands: &[u8], store: &[u8], partition: usize, start: Running) -> Ran
    requires { Right ops.now operands.now × Sound store.now × (partition ≤ parts_of store.now) × Inside ops.now start }
    ensures { Kept result.pending
        × (block_of (rows_of store.now partition) result
        ≡ run_of ops.now operands.now (rows_of store.now partition) start) }
{
    let mut x = start;
    // Stays so: the new form is no plainer. A jump moves on by more than one, so no `for` gives the positions.
    while x.place.position < ops.len() {
        let place = x.place;
        let position = place.position;
        let byte = ops[position];
        if operation::operation_of(byte) == operation::END {
            let d = operation::register_of(byte) as usize;
            let pending = x.pending;
            return Ran {
                result: place.registers[d],
                pending,
            };
        }
        let word = code::word_in(operands, position);
        x = step(store, partition, x, byte, word);
    }
    let pending = x.pending;
    Ran { result: 0, pending }
}

// The block that BEGIN at `begin` opens, run on a copy of the registers. The store is only read.
pub(crate) fn run(
    ops: &[u8],
    operands: &[u8],
    store: &[u8],
    partition: usize,
    begin: usize,
    registers: [u32; 8],
) -> Ran
    requires { Ready ops.now operands.now store.now partition begin }
    ensures { Kept result.pending
        × (block_of (rows_of store.now partition) result
        ≡ block_at ops.now operands.now store.now partition begin registers) }
{
    let start = Running {
        place: Spot {
            position: begin + 1,
            registers,
        },
        pending: no_pending(),
    };
    run_on(ops, operands, store, partition, start)
}
