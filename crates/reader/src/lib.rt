// A reader carries the lent pack along with the workflow that it has open, so that a workflow is checked and found once and then read.
// The functions over it are thin: they take the struct apart or copy it, and call one on slices and numbers.
#![tactic(auto)]

ghost use Rattle.std.specs.Prelude.{◌≡◌, ◌*◌};
ghost use Rattle.reader.specs.Readers.{part_of, opening_of, operations_from, operands_from, reader_of, Opened};
ghost use Rattle.reader.specs.Readers.{operations_in, operands_in, Beside, Read};

use questions::Verdict;

// `operations`, `operands`: where the workflow's operation bytes and operand bytes begin in the pack; `size`: how many instructions it
// has. Refused, all three are 0, and there is nothing to read. Stays so, a verdict beside numbers and no `Result` of them: the edits
// `numbers_of_a_refusal` and `refused_reader_of_something` speak of a refused reader's numbers.
#[derive(Clone, Copy)]
pub struct Reader<'a> {
    pub pack: &'a [u8],
    pub workflow: u32,
    pub verdict: Verdict,
    pub operations: usize,
    pub operands: usize,
    pub size: usize,
}

// What an opening finds.
#[derive(Clone, Copy)]
pub struct Opening {
    pub verdict: Verdict,
    pub operations: usize,
    pub operands: usize,
    pub size: usize,
}

// An instruction as it stands in the pack: operation byte and operand word.
#[derive(Clone, Copy)]
pub struct Instruction {
    pub byte: u8,
    pub word: u32,
}

// So many bytes from `start` on; the empty part where the pack has not so many. Stays so, and no `get`: the edits `last_part_lost` and
// `last_words_lost` turn just these comparisons.
fn part_or_none(pack: &[u8], start: usize, count: usize) -> &[u8]
    ensures { result.now ≡ part_of pack.now start count }
{
    if pack.len() < start {
        return &pack[..0];
    }
    if pack.len() - start < count {
        return &pack[..0];
    }
    let end = start + count;
    &pack[start..end]
}

// The bytes of so many words from `start` on, likewise.
fn words_or_none(pack: &[u8], start: usize, count: usize) -> &[u8]
    ensures { result.now ≡ part_of pack.now start (4 * count) }
{
    if pack.len() / 4 < count {
        return &pack[..0];
    }
    part_or_none(pack, start, 4 * count)
}

// Opening a workflow: questions 1 to 8 and 17, and where the workflow stands.
fn opening_of(pack: &[u8], workflow: u32) -> Opening
    ensures { result ≡ opening_of pack.now workflow }
{
    let verdict = pack::open(pack, workflow);
    match verdict {
        Ok(()) => {
            let number = workflow as usize;
            Opening {
                verdict,
                operations: pack::operations_at(pack, number),
                operands: pack::operands_at(pack, number),
                size: pack::size_at(pack, number),
            }
        }
        Err(_) => Opening {
            verdict,
            operations: 0,
            operands: 0,
            size: 0,
        },
    }
}

// An instruction of a reader's operation bytes and operand bytes, by its index.
fn instruction_in<'a>(bytes: &'a [u8], words: &'a [u8], index: usize) -> Instruction
    ensures { Beside bytes.now words.now → Read bytes.now words.now index result }
{
    if bytes.len() <= index {
        return Instruction {
            byte: 0xB0,
            word: 0,
        };
    }
    if words.len() / 4 <= index {
        return Instruction {
            byte: bytes[index],
            word: 0,
        };
    }
    Instruction {
        byte: bytes[index],
        word: code::word_in(words, index),
    }
}

// A workflow is opened.
pub fn open<'a>(pack: &'a [u8], workflow: u32) -> Reader<'a>
    ensures { result ≡ reader_of pack.entry workflow }
{
    let o = opening_of(pack, workflow);
    Reader {
        pack,
        workflow,
        verdict: o.verdict,
        operations: o.operations,
        operands: o.operands,
        size: o.size,
    }
}

// Its operation bytes: a part of the pack, at the pack's own lifetime.
pub fn operations<'a>(r: Reader<'a>) -> &'a [u8]
    ensures of_any { result.now ≡ operations_in r.entry }
    ensures of_opened { Opened r.entry → result.now ≡ operations_from r.entry.pack.now r.entry.workflow }
{
    part_or_none(r.pack, r.operations, r.size)
}

// Its operand bytes, likewise. Stays so, beside `operations`: each is one call, on other fields; with a parameter it is no plainer.
pub fn operands<'a>(r: Reader<'a>) -> &'a [u8]
    ensures of_any { result.now ≡ operands_in r.entry }
    ensures of_opened { Opened r.entry → result.now ≡ operands_from r.entry.pack.now r.entry.workflow }
{
    words_or_none(r.pack, r.operands, r.size)
}

// Its instruction at an index; past the end RETURN 0.
pub fn instruction_at<'a>(r: Reader<'a>, index: usize) -> Instruction
    ensures of_any { Read (operations_in r.entry) (operands_in r.entry) index result }
    ensures of_opened { Opened r.entry → Read (operations_from r.entry.pack.now r.entry.workflow)
        (operands_from r.entry.pack.now r.entry.workflow) index result }
{
    instruction_in(operations(r), operands(r), index)
}

// The same with plain parameters. The parts of a workflow come so from `pack::operations` and `pack::operands`.
pub fn instruction_of(pack: &[u8], workflow: u32, index: usize) -> Instruction
    ensures { Read (operations_from pack.now workflow) (operands_from pack.now workflow) index result }
{
    instruction_at(open(pack, workflow), index)
}
