// An operation byte and a packed jump operand taken apart by shifts and masks, sums and differences that keep the remainder by 2^32,
// and the table of operations.
#![tactic(auto)]

ghost use Rattle.std.specs.Prelude.{◌≡◌, ◌+◌, ◌-◌, ◌%◌, ◌^◌, ◌<◌, Bool, ◌==◌};
ghost use Rattle.operation.specs.Parts.{operation_of, register_of, bit3_of, target_of, source_of};
ghost use Rattle.operation.specs.Operations.{entry_of};

// The high four bits: the operation.
pub fn operation_of(byte: u8) -> u8
    ensures { result ≡ operation_of byte }
{
    byte >> 4
}

// The low three bits: the register d.
pub fn register_of(byte: u8) -> u8
    ensures { result ≡ register_of byte }
{
    byte & 7
}

// Is bit 3 clear?
pub fn bit3_clear(byte: u8) -> bool
    ensures { result ≡ (bit3_of byte == 0) }
{
    byte & 8 == 0
}

// A jump's operand is 16 × target + s.
pub fn target_of(word: u32) -> u32
    ensures { result ≡ target_of word }
{
    word >> 4
}

pub fn source_of(word: u32) -> u32
    ensures { result ≡ source_of word }
{
    word & 15
}

// ADD, as the rules' table of operations has it.
pub fn add32(x: u32, y: u32) -> u32
    ensures { result ≡ (x + y) % 2 ^ 32 }
{
    std::num::wrapping_add_u32(x, y)
}

// SUB, likewise.
pub fn sub32(x: u32, y: u32) -> u32
    ensures { result ≡ (x + 2 ^ 32 - y) % 2 ^ 32 }
{
    std::num::wrapping_sub_u32(x, y)
}

// The operations by number.
pub const SET: u8 = 0;

pub const COPY: u8 = 1;

pub const ADD: u8 = 2;

pub const SUB: u8 = 3;

pub const JLT: u8 = 4;

pub const JEQ: u8 = 5;

pub const BEGIN: u8 = 6;

pub const END: u8 = 7;

pub const GET: u8 = 8;

pub const PUT: u8 = 9;

pub const HAS: u8 = 10;

pub const RETURN: u8 = 11;

// Where an operation stands.
#[derive(Clone, Copy)]
pub enum Side {
    Anywhere,
    Inside,
    Outside,
}

// What its operand w may be.
#[derive(Clone, Copy)]
pub enum Operand {
    Any,
    Below8,
    Jump,
    Zero,
}

// What the table says of an operation; `fixed`: its register d is 0.
#[derive(Clone, Copy)]
pub struct Entry {
    pub side: Side,
    pub operand: Operand,
    pub fixed: bool,
}

// The table of operations, one entry for each: a 16-entry constant table is the form that the requirement names. It is a reference, so that
// it stands once in the program: a constant array is built anew on the stack at each use (169,101 instructions for the check of a
// pack of 8 x 256, against 105,613). Those behind RETURN are no operations: question 4 refuses their bytes before the table is looked up.
#[rattlefmt::skip]
const TABLE: &[Entry; 16] = &[
    Entry { side: Side::Anywhere, operand: Operand::Any, fixed: false }, // SET
    Entry { side: Side::Anywhere, operand: Operand::Below8, fixed: false }, // COPY
    Entry { side: Side::Anywhere, operand: Operand::Below8, fixed: false }, // ADD
    Entry { side: Side::Anywhere, operand: Operand::Below8, fixed: false }, // SUB
    Entry { side: Side::Anywhere, operand: Operand::Jump, fixed: false }, // JLT
    Entry { side: Side::Anywhere, operand: Operand::Jump, fixed: false }, // JEQ
    Entry { side: Side::Outside, operand: Operand::Below8, fixed: true }, // BEGIN
    Entry { side: Side::Inside, operand: Operand::Zero, fixed: false }, // END
    Entry { side: Side::Inside, operand: Operand::Below8, fixed: false }, // GET
    Entry { side: Side::Inside, operand: Operand::Below8, fixed: false }, // PUT
    Entry { side: Side::Inside, operand: Operand::Below8, fixed: false }, // HAS
    Entry { side: Side::Outside, operand: Operand::Zero, fixed: false }, // RETURN
    Entry { side: Side::Anywhere, operand: Operand::Below8, fixed: false }, // 12, none
    Entry { side: Side::Anywhere, operand: Operand::Below8, fixed: false }, // 13, none
    Entry { side: Side::Anywhere, operand: Operand::Below8, fixed: false }, // 14, none
    Entry { side: Side::Anywhere, operand: Operand::Below8, fixed: false }, // 15, none
];

// What the table says of the operation of a byte. The table is looked up once.
pub fn entry_of(byte: u8) -> Entry
    ensures { result ≡ entry_of (operation_of byte) }
{
    TABLE[operation_of(byte) as usize]
}
