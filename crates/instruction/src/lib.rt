// One instruction carried out: on registers alone, inside a block or outside; or on a block's view of its partition, PUTs beside the store.
#![tactic(auto)]

pub mod pending;

ghost use Rattle.std.specs.Prelude.{List, ◌≡◌, ◌+◌, ◌%◌, ◌^◌, ◌≤◌, ◌<◌};
ghost use Rattle.questions.specs.Basics.{if◌then◌otherwise◌};
ghost use Rattle.rules.specs.Instructions.{moves, act, next, goto, becomes, Instruction};
ghost use Rattle.operation.specs.Parts.{operation_of};
ghost use Rattle.code.specs.Meaning.{decode, instruction_of};
ghost use Rattle.store.specs.Rows.{Row, rows_of};
ghost use Rattle.store.specs.Layout.{parts_of};
ghost use Rattle.store.specs.Sound.{Sound};
ghost use Rattle.instruction.specs.Pending.{Kept};
ghost use Rattle.instruction.specs.Step.{place_of, Stepped, puts_of, Sourced, Fits};

use crate::pending::{Pending, pending_put, seen_value};

// Where a request stands: the position of its next instruction, and its registers.
#[derive(Clone, Copy)]
pub struct Spot {
    pub position: usize,
    pub registers: [u32; 8],
}

// A block's run under way: where it stands, with its copy of the registers; and its PUTs.
#[derive(Clone, Copy)]
pub struct Running {
    pub place: Spot,
    pub pending: Pending,
}

// The register s that an operand names: its low three bits.
fn register_named(word: u32) -> usize
    ensures { (result ≡ word % 8) × (result < 8) }
{
    (word & 7) as usize
}

// On to the next instruction.
fn advanced(x: Spot) -> Spot
    requires { x.position + 1 < 2 ^ 64 }
    ensures { place_of result ≡ next (place_of x) }
{
    let registers = x.registers;
    Spot {
        position: x.position + 1,
        registers,
    }
}

// Register d becomes `value`, and on to the next instruction.
fn with_register(x: Spot, d: usize, value: u32) -> Spot
    requires { (d < 8) × (x.position + 1 < 2 ^ 64) }
    ensures { place_of result ≡ becomes (place_of x) d value }
{
    let mut registers = x.registers;
    registers[d] = value;
    Spot {
        position: x.position + 1,
        registers,
    }
}

// To a jump's target if it is taken, else on to the next instruction.
fn jumped(x: Spot, taken: bool, target: u32) -> Spot
    requires { x.position + 1 < 2 ^ 64 }
    ensures { place_of result ≡ if◌then◌otherwise◌ taken (goto (place_of x) target) (next (place_of x)) }
{
    if taken {
        let registers = x.registers;
        return Spot {
            position: target as usize,
            registers,
        };
    }
    advanced(x)
}

// SET, COPY, ADD, SUB, JLT, JEQ, inside a block or outside: registers alone.
pub fn moved(x: Spot, op: u8, d: usize, word: u32) -> Spot
    requires { (op < 6) × (d < 8) × (x.position + 1 < 2 ^ 64) × Sourced op word }
    ensures { moves (place_of result) ≡ act (decode op d word) (place_of x) }
{
    let s = register_named(word);
    let a = x.registers[d];
    let b = x.registers[s];
    let target = operation::target_of(word);
    match op {
        0 => with_register(x, d, word),
        1 => with_register(x, d, b),
        2 => with_register(x, d, operation::add32(a, b)),
        3 => with_register(x, d, operation::sub32(a, b)),
        4 => jumped(x, a < b, target),
        _ => jumped(x, a == b, target),
    }
}

// The run at another place, its PUTs as they are.
fn at_place(x: Running, place: Spot) -> Running
    ensures { result ≡ record { place = place; pending = x.pending } }
{
    let pending = x.pending;
    Running { place, pending }
}

// GET. An absent key leaves register d as it was.
fn got(store: &[u8], partition: usize, x: Running, d: usize, s: usize) -> Running
    requires { Sound store.now × (partition ≤ parts_of store.now) × Kept x.pending × (d < 8) × (s < 8)
        × (x.place.position + 1 < 2 ^ 64) }
    ensures { Stepped (act (Instruction.GET d s) (place_of x.place)) (rows_of store.now partition) x result 0 }
{
    let place = x.place;
    let key = keys::data_key(place.registers[s]);
    let old = place.registers[d];
    let seen = seen_value(store, partition, x.pending, key);
    at_place(x, with_register(place, d, seen.unwrap_or(old)))
}

// HAS.
fn tested(store: &[u8], partition: usize, x: Running, d: usize, s: usize) -> Running
    requires { Sound store.now × (partition ≤ parts_of store.now) × Kept x.pending × (d < 8) × (s < 8)
        × (x.place.position + 1 < 2 ^ 64) }
    ensures { Stepped (act (Instruction.HAS d s) (place_of x.place)) (rows_of store.now partition) x result 0 }
{
    let place = x.place;
    let key = keys::data_key(place.registers[s]);
    let seen = seen_value(store, partition, x.pending, key);
    at_place(x, with_register(place, d, u32::from(seen.is_some())))
}

// PUT.
fn put_value(x: Running, d: usize, s: usize) -> Running
    requires { Kept x.pending × (x.pending.count < 16) × (d < 8) × (s < 8) × (x.place.position + 1 < 2 ^ 64) }
    ensures { (rs : List Row) → Stepped (act (Instruction.PUT d s) (place_of x.place)) rs x result 1 }
{
    let from = x.place;
    let before = x.pending;
    let key = keys::data_key(from.registers[d]);
    let pending = pending_put(before, key, from.registers[s]);
    let place = advanced(from);
    Running { place, pending }
}

// Operations by number.
const GET: u8 = 8;

const HAS: u8 = 10;

// One instruction inside a block, other than END.
pub fn step(store: &[u8], partition: usize, x: Running, byte: u8, word: u32) -> Running
    requires sound { Sound store.now × (partition ≤ parts_of store.now) × Kept x.pending × (x.place.position + 1 < 2 ^ 64) }
    requires fits { Fits byte word x }
    ensures { Stepped (act (instruction_of byte word) (place_of x.place)) (rows_of store.now partition) x result
        (puts_of (operation_of byte)) }
{
    let op = operation::operation_of(byte);
    let d = operation::register_of(byte) as usize;
    let s = register_named(word);
    if op == GET {
        return got(store, partition, x, d, s);
    }
    if op == operation::PUT {
        return put_value(x, d, s);
    }
    if op == HAS {
        return tested(store, partition, x, d, s);
    }
    let place = x.place;
    at_place(x, moved(place, op, d, word))
}
