// The code of one workflow: questions 4 to 8 put to its operation bytes and operand bytes, and the reading of an operand.
#![tactic(auto)]

ghost use Rattle.std.specs.Prelude.{ℕ, ◌≡◌, true, false, ◌&&◌, ◌+◌, ◌-◌, ◌*◌, ◌≤◌, ◌<◌, length, eqb};
ghost use Rattle.questions.specs.Basics.{if◌then◌otherwise◌, each_from};
ghost use Rattle.operation.specs.Operations.{op_put};
ghost use Rattle.std.proofs.Math.Option.{none};
ghost use Rattle.questions.specs.Questions.{no, ask, first_no};
ghost use Rattle.questions.specs.Verdicts.{verdict_of};
ghost use Rattle.operation.specs.Parts.{operation_of, register_of, target_of};
ghost use Rattle.code.specs.Layout.{word_at};
ghost use Rattle.code.specs.Questions.{legal, in_range, register_right, inside_behind, inside_at, stands, is_no_end, lands_from, lands};
ghost use Rattle.code.specs.Questions.{puts_before, counted};
ghost use Rattle.code.specs.Refusal.{instruction_no, code_no};
ghost use Rattle.code.specs.Stopped.{at_place, stopped};

use operation::{Entry, Operand, Side};
use questions::{Verdict, ask_at, refused};

// Is the operation 0 to B, and bit 3 clear?
#[tactic(auto, unfolding(crate::specs::Questions::legal))]
fn is_legal(byte: u8) -> bool
    ensures { result ≡ legal byte }
{
    operation::operation_of(byte) <= 11 && operation::bit3_clear(byte)
}

// Is an operand in its range?
#[tactic(auto, unfolding(crate::specs::Questions::in_range))]
fn operand_in_range(operand: Operand, size: usize, index: usize, word: u32) -> bool
    ensures { result ≡ in_range operand size index word }
{
    match operand {
        Operand::Any => true,
        Operand::Below8 => word < 8,
        Operand::Jump => {
            let target = operation::target_of(word) as usize;
            operation::source_of(word) < 8 && index < target && target < size
        }
        Operand::Zero => word == 0,
    }
}

// Are the operand, and the register where it is fixed, in range?
#[tactic(auto, unfolding(crate::specs::Questions::register_right))]
fn is_ranged(entry: Entry, byte: u8, size: usize, index: usize, word: u32) -> bool
    ensures { result ≡ in_range entry.operand size index word && register_right entry.fixed (register_of byte) }
{
    operand_in_range(entry.operand, size, index, word)
        && (!entry.fixed || operation::register_of(byte) == 0)
}

// May an operation of this side stand here?
#[tactic(auto, unfolding(crate::specs::Questions::stands))]
fn stands_on(side: Side, inside: bool) -> bool
    ensures { result ≡ stands side inside }
{
    match side {
        Side::Anywhere => true,
        Side::Inside => inside,
        Side::Outside => !inside,
    }
}

// The side behind an operation byte.
fn inside_behind(byte: u8, inside: bool) -> bool
    ensures { result ≡ inside_behind (operation_of byte) inside }
{
    match operation::operation_of(byte) {
        operation::BEGIN => true,
        operation::END => false,
        _ => inside,
    }
}

// Is the instruction at `index` inside a block? Seen from one that is outside, at `start`.
pub fn is_inside(ops: &[u8], start: usize, index: usize) -> bool
    requires bounds { (start ≤ index) × (index ≤ length ops.now) }
    requires start_outside { inside_at ops.now start ≡ false }
    ensures { result ≡ inside_at ops.now index }
{
    let mut inside = false;
    for byte in &ops[start..index] {
        inside = inside_behind(*byte, inside);
    }
    inside
}

// Is there no END among the instructions from `first` up to, but not including, `end`?
fn has_no_end(ops: &[u8], first: usize, end: usize) -> bool
    requires { (first ≤ end) × (end ≤ length ops.now) }
    ensures { result ≡ each_from (is_no_end ops.now) (end - first) first }
{
    ops[first..end]
        .iter()
        .all(|byte| operation::operation_of(*byte) != operation::END)
}

// Does a jump from `index` to a `target` ahead land on the right side? From outside a block it lands outside; from inside it passes no END.
#[tactic(auto, unfolding(crate::specs::Questions::lands_from))]
fn lands_right<const INSIDE: bool>(ops: &[u8], index: usize, target: usize) -> bool
    requires side { inside_at ops.now index ≡ INSIDE }
    requires ahead { (index < target) × (target ≤ length ops.now) }
    ensures { result ≡ lands_from INSIDE ops.now index target }
{
    if INSIDE {
        has_no_end(ops, index + 1, target)
    } else {
        !is_inside(ops, index, target)
    }
}

// Does an instruction stand, and its jump land, on the right side?
#[tactic(auto, unfolding(crate::specs::Questions::lands), using(crate::proofs::Judged::target_ahead, crate::proofs::Judged::target_below))]
fn is_sided<const INSIDE: bool>(entry: Entry, ops: &[u8], index: usize, word: u32) -> bool
    requires side { inside_at ops.now index ≡ INSIDE }
    requires in_range { in_range entry.operand (length ops.now) index word ≡ true }
    ensures { result ≡ stands entry.side INSIDE && lands entry.operand INSIDE ops.now index (target_of word) }
{
    stands_on(entry.side, INSIDE)
        && match entry.operand {
            Operand::Jump => lands_right::<INSIDE>(ops, index, operation::target_of(word) as usize),
            _ => true,
        }
}

// Is it no PUT, or one behind fewer than 16? Outside a block there is no PUT: it would stand on the wrong side.
#[tactic(auto, unfolding(crate::specs::Questions::counted))]
fn is_counted<const INSIDE: bool>(byte: u8, puts: usize) -> bool
    requires { INSIDE ≡ false → operation_of byte ≡ op_put → ⊥ }
    ensures { result ≡ counted (operation_of byte) puts }
{
    !INSIDE || operation::operation_of(byte) != operation::PUT || puts < 16
}

// The PUTs of a block behind an instruction that is neither BEGIN nor END.
fn puts_behind(op: u8, puts: usize) -> usize
    requires { puts ≤ 16 }
    ensures { result ≡ (if eqb op op_put then puts + 1 otherwise puts) }
{
    if op == operation::PUT { puts + 1 } else { puts }
}

// A question by its number alone: after a yes the rest is asked.
#[tactic(auto, unfolding(questions::specs::Questions::ask))]
fn ask_number(question: u8, yes: bool) -> Result<(), u8>
    ensures { (workflow instruction : ℕ) →
        at_place workflow instruction result ≡ verdict_of (ask (no question workflow instruction) yes none) }
{
    if yes { Ok(()) } else { Err(question) }
}

// Questions 4 to 7 on an instruction, the first no by its number: is it inside a block, and how many of the block's PUTs are before it?
// Outside `puts` does not count. `INSIDE` is a constant, so that the side is not looked at for each instruction.
fn judge<const INSIDE: bool>(
    ops: &[u8],
    operands: &[u8],
    index: usize,
    puts: usize,
) -> Result<(), u8>
    requires in_code { (index < length ops.now) × (length operands.now ≡ 4 * length ops.now) }
    requires side { inside_at ops.now index ≡ INSIDE }
    requires counted { INSIDE ≡ true → puts_before ops.now index ≡ puts }
    ensures { (workflow : ℕ) →
        at_place workflow index result ≡ verdict_of (instruction_no workflow ops.now operands.now index) }
{
    let byte = ops[index];
    let word = word_in(operands, index);
    ask_number(4, is_legal(byte))?;
    let entry = operation::entry_of(byte);
    let ranged = is_ranged(entry, byte, ops.len(), index, word);
    ask_number(5, ranged)?;
    let sided = is_sided::<INSIDE>(entry, ops, index, word);
    ask_number(6, sided)?;
    ask_number(7, is_counted::<INSIDE>(byte, puts))
}

// Where a walk stopped: the question that was answered no, and the instruction. The workflow is put to it behind the walk: a verdict, with
// room for all three, would be handed back through each block of a workflow, and takes more to copy and more stack at each.
#[derive(Clone, Copy, Debug, PartialEq, Eq)]
struct Stop {
    question: u8,
    instruction: usize,
}

// Two functions that call each other: the requirement names this form. Each hands on fewer instructions than it was given.
// What the other comes to is handed back by `?`, which copies a no alone: what is handed back whole is copied once for each block.
// Outside a block, from instruction `first` on, until BEGIN.
#[cycle(walk_inside_walk_outside)]
fn walk_outside(ops: &[u8], operands: &[u8], first: usize) -> Result<(), Stop>
    requires operands_len { length operands.now ≡ 4 * length ops.now }
    requires outside { inside_at ops.now first ≡ false }
    ensures { (workflow : ℕ) → stopped workflow result ≡ verdict_of (first_no (instruction_no workflow ops.now operands.now)
        (length ops.now - first) first) }
{
    for i in first..ops.len() {
        if let Err(question) = judge::<false>(ops, operands, i, 0) {
            return Err(Stop {
                question,
                instruction: i,
            });
        }
        if operation::operation_of(ops[i]) == operation::BEGIN {
            walk_inside(ops, operands, i + 1)?;
            return Ok(());
        }
    }
    Ok(())
}

// Inside a block, from its first instruction on, until END.
#[cycle(walk_inside_walk_outside)]
fn walk_inside(ops: &[u8], operands: &[u8], first: usize) -> Result<(), Stop>
    requires operands_len { length operands.now ≡ 4 * length ops.now }
    requires begins_inside { (inside_at ops.now first ≡ true) × (puts_before ops.now first ≡ 0) }
    ensures { (workflow : ℕ) → stopped workflow result ≡ verdict_of (first_no (instruction_no workflow ops.now operands.now)
        (length ops.now - first) first) }
{
    let mut puts = 0;
    for i in first..ops.len() {
        if let Err(question) = judge::<true>(ops, operands, i, puts) {
            return Err(Stop {
                question,
                instruction: i,
            });
        }
        let op = operation::operation_of(ops[i]);
        if op == operation::END {
            walk_outside(ops, operands, i + 1)?;
            return Ok(());
        }
        puts = puts_behind(op, puts);
    }
    Ok(())
}

// Questions 4 to 8 on one workflow.
pub fn check_workflow(ops: &[u8], operands: &[u8], workflow: usize) -> Verdict
    requires { (1 ≤ length ops.now) × (length operands.now ≡ 4 * length ops.now) }
    ensures { result ≡ verdict_of (code_no workflow ops.now operands.now) }
{
    if let Err(stop) = walk_outside(ops, operands, 0) {
        return refused(stop.question, workflow, stop.instruction);
    }
    let last = ops.len() - 1;
    let returns = operation::operation_of(ops[last]) == operation::RETURN;
    ask_at(8, workflow, last, returns)
}

// The operand word of an instruction, from the workflow's own operand bytes.
pub fn word_in(operands: &[u8], index: usize) -> u32
    requires { 4 * index + 4 ≤ length operands.now }
    ensures { result ≡ word_at operands.now index }
{
    words::read32(operands, 4 * index)
}
