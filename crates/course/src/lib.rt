// What an agent does next: one function says it, and whoever moves an agent on acts on its answer.
#![tactic(auto)]

ghost use Rattle.std.specs.Prelude.{List, ◌≡◌, ◌==◌, ℕ, ◌<◌, length, position};
ghost use Rattle.operation.specs.Operations.{op_end};
ghost use Rattle.operation.specs.Parts.{operation_of};
ghost use Rattle.rules.specs.Blocks.{yields, behind_end};
ghost use Rattle.rules.specs.Courses.{going, passed, next_of};
ghost use Rattle.code.specs.Meaning.{code_of};
ghost use Rattle.instruction.specs.Step.{place_of};
ghost use Rattle.course.specs.Next.{next_in, StandsOutside};

use instruction::Spot;

// It stands elsewhere, after one instruction; it does a block of this partition; or it replies with this value.
#[derive(Clone, Copy)]
pub enum Next {
    Goes,
    Does(usize),
    Says(u32),
}

// With the place where it goes, or where its block opens; with a reply nothing is said of it.
#[derive(Clone, Copy)]
pub struct Upcoming {
    pub next: Next,
    pub place: Spot,
}

// What the agent that stands at `from` does next, by its instruction.
pub fn next_of(ops: &[u8], operands: &[u8], from: Spot) -> Upcoming
    requires { StandsOutside ops.now operands.now from }
    ensures { next_in (code_of ops.now operands.now) result
        ≡ next_of (code_of ops.now operands.now) (going (place_of from)) }
{
    let position = from.position;
    let byte = ops[position];
    let op = operation::operation_of(byte);
    let d = operation::register_of(byte) as usize;
    if op == operation::RETURN {
        return Upcoming {
            next: Next::Says(from.registers[d]),
            place: from,
        };
    }
    let word = code::word_in(operands, position);
    if op == operation::BEGIN {
        return Upcoming {
            next: Next::Does(word as usize),
            place: from,
        };
    }
    Upcoming {
        next: Next::Goes,
        place: instruction::moved(from, op, d, word),
    }
}

// Where the first END of these bytes is.
fn first_end(bytes: &[u8]) -> Option<usize>
    ensures { result ≡ position (λ byte. operation_of byte == op_end) bytes.now }
{
    bytes
        .iter()
        .position(|byte| operation::operation_of(*byte) == operation::END)
}

// The position behind the END of the block that BEGIN at `begin` opens.
fn behind_end(ops: &[u8], begin: usize) -> usize
    requires { begin < length ops.now }
    ensures { (ws : List ℕ) → result ≡ behind_end (code_of ops.now ws) begin }
{
    let first = begin + 1;
    match first_end(&ops[first..]) {
        Some(end) => first + end + 1,
        None => ops.len(),
    }
}

// Where the agent stands behind the block that opens at `begin`, with the block's result.
pub fn behind_block(ops: &[u8], begin: Spot, value: u32) -> Spot
    requires { begin.position < length ops.now }
    ensures { (ws : List ℕ) → going (place_of result) ≡ passed (code_of ops.now ws) (place_of begin) (yields value) }
{
    let mut registers = begin.registers;
    registers[0] = value;
    let position = behind_end(ops, begin.position);
    Spot {
        position,
        registers,
    }
}
