// How much a workflow takes: its most turns and, for each partition, its most rows, over all routes through it. Each figure is worked out
// in one pass from the workflow's last instruction to its first, with a table of the most from each instruction on.
#![tactic(auto)]

ghost use Rattle.std.specs.Prelude.{◌≡◌, true, false, ℕ, ◌+◌, ◌≤◌, ◌<◌, eqb, length, get_or};
ghost use Rattle.questions.specs.Basics.{if◌then◌otherwise◌};
ghost use Rattle.rules.specs.Routes.{by_rows, MostOf};
ghost use Rattle.operation.specs.Operations.{op_begin, op_end, op_put, op_return, operand_of};
ghost use Rattle.code.specs.Layout.{operation_at};
ghost use Rattle.code.specs.Meaning.{code_of};
ghost use Rattle.figures.specs.Counted.{counting_of, is_jump, MostAt, Filled, Sized, Reached};
ghost use Rattle.figures.specs.Answered.{Answered};

use questions::Refusal;

// What is counted on a route: its turns, or its rows in a partition.
#[derive(Clone, Copy)]
enum Counted {
    Turns,
    Rows(u32),
}

// The most turns, and the most rows of partition 0 to 7.
#[derive(Clone, Copy, Debug, PartialEq, Eq)]
pub struct Figured {
    pub turns: u32,
    pub rows: [u32; 8],
}

// What an instruction outside blocks counts.
fn one_of(by: Counted) -> u32
    ensures { result ≡ (counting_of by).one }
{
    match by {
        Counted::Turns => 1,
        Counted::Rows(_) => 0,
    }
}

// What a block of a partition counts in which so many PUTs are passed.
fn block_of(by: Counted, partition: u32, puts: u32) -> u32
    requires { puts ≤ 256 }
    ensures { result ≡ (counting_of by).block partition puts }
{
    match by {
        Counted::Turns => 1,
        Counted::Rows(counted) if partition == counted => 1 + puts,
        Counted::Rows(_) => 0,
    }
}

// What an instruction that leads on counts: inside a block only PUT counts.
fn own_of(by: Counted, inside: bool, op: u8) -> u32
    ensures { result ≡ (if inside then (if eqb op op_put then 1 otherwise 0) otherwise (counting_of by).one) }
{
    if inside {
        u32::from(op == operation::PUT)
    } else {
        one_of(by)
    }
}

// Is it a jump?
#[tactic(auto, unfolding(operation::specs::Operations::operand_of))]
fn is_jump(op: u8) -> bool
    ensures { result ≡ is_jump (operand_of op) }
{
    op == operation::JLT || op == operation::JEQ
}

// The most from an instruction that leads on, where the table has the most from each one behind it. A jump may go either way.
fn most_leading(
    ops: &[u8],
    operands: &[u8],
    by: Counted,
    index: usize,
    inside: bool,
    most: &[u32],
) -> u32
    requires reached { (behind : ℕ) × Reached ops.now operands.now index inside behind }
    requires filled { Filled by ops.now operands.now (index + 1) most.now }
    requires goes_on { (operation_at ops.now index ≡ op_begin → ⊥) × (operation_at ops.now index ≡ op_end → ⊥)
        × (operation_at ops.now index ≡ op_return → ⊥) }
    ensures { MostAt by ops.now operands.now index result }
{
    let op = operation::operation_of(ops[index]);
    let own = own_of(by, inside, op);
    let next = most[index + 1];
    if is_jump(op) {
        let target = operation::target_of(code::word_in(operands, index)) as usize;
        return own + next.max(most[target]);
    }
    own + next
}

// The most from an instruction on, where the table has the most from each one behind it. `behind` is the index behind the next END.
fn most_at(
    ops: &[u8],
    operands: &[u8],
    by: Counted,
    index: usize,
    inside: bool,
    behind: usize,
    most: &[u32],
) -> u32
    requires reached { Reached ops.now operands.now index inside behind }
    requires filled { Filled by ops.now operands.now (index + 1) most.now }
    ensures { MostAt by ops.now operands.now index result }
{
    match operation::operation_of(ops[index]) {
        operation::END => 0,
        operation::RETURN => one_of(by),
        operation::BEGIN => block_of(by, code::word_in(operands, index), most[index + 1])
            + most[behind],
        _ => most_leading(ops, operands, by, index, inside, most),
    }
}

// The side of an operation, by the side behind it: END stands inside a block, BEGIN outside.
fn inside_before(op: u8, inside: bool) -> bool
    ensures { result ≡ (if eqb op op_end then true otherwise (if eqb op op_begin then false otherwise inside)) }
{
    match op {
        operation::END => true,
        operation::BEGIN => false,
        _ => inside,
    }
}

// The index behind the next END from an operation on, by the one from those behind it.
fn behind_before(op: u8, index: usize, behind: usize) -> usize
    requires { index < 256 }
    ensures { result ≡ (if eqb op op_end then index + 1 otherwise behind) }
{
    if op == operation::END {
        index + 1
    } else {
        behind
    }
}

// Fills the table from the last instruction to the first.
fn fill(ops: &[u8], operands: &[u8], by: Counted, most: &mut [u32])
    requires { Sized ops.now operands.now × (length ops.now ≤ length most.old) }
    ensures { Filled by ops.now operands.now 0 most.new }
{
    let mut inside = false;
    let mut behind = ops.len();
    for index in (0..ops.len()).rev() {
        let op = operation::operation_of(ops[index]);
        inside = inside_before(op, inside);
        most[index] = most_at(ops, operands, by, index, inside, behind, most);
        behind = behind_before(op, index, behind);
    }
}

// The most over all routes through a workflow.
fn most_of(ops: &[u8], operands: &[u8], by: Counted) -> u32
    requires { Sized ops.now operands.now }
    ensures { MostOf (counting_of by) (code_of ops.now operands.now) result }
{
    let mut most = [0u32; 256];
    fill(ops, operands, by, &mut most);
    most[0]
}

// The most rows of each partition.
fn most_rows(ops: &[u8], operands: &[u8]) -> [u32; 8]
    requires { Sized ops.now operands.now }
    ensures eight { length result ≡ 8 }
    ensures most { (p : ℕ) → p < 8 → MostOf (by_rows p) (code_of ops.now operands.now) (get_or result p 0) }
{
    let mut rows = [0u32; 8];
    for partition in 0..8 {
        rows[partition] = most_of(ops, operands, Counted::Rows(partition as u32));
    }
    rows
}

// How much a workflow takes: questions 1 to 8 and 17, then its turns and its rows in partition 0 to 7.
pub fn figures(pack: &[u8], workflow: u32) -> Result<Figured, Refusal>
    ensures { Answered pack.now workflow result }
{
    pack::open(pack, workflow)?;
    let ops = pack::operations_part(pack, workflow as usize);
    let operands = pack::operands_part(pack, workflow as usize);
    Ok(Figured {
        turns: most_of(ops, operands, Counted::Turns),
        rows: most_rows(ops, operands),
    })
}
