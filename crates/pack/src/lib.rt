// The pack of workflows: its check, and the opening of a workflow.
#![tactic(auto)]

ghost use Rattle.std.specs.Prelude.{◌≡◌, ◌+◌, ◌*◌, ◌≤◌, ◌<◌, length, take, drop};
ghost use Rattle.questions.specs.Basics.{each};
ghost use Rattle.questions.specs.Questions.{first_no};
ghost use Rattle.questions.specs.Verdicts.{verdict_of};
ghost use Rattle.pack.specs.Layout.{count, size_of, first_of, total, operations_at, operands_at, operations_of, operands_of};
ghost use Rattle.pack.specs.Laid.{Laid};
ghost use Rattle.pack.specs.Questions.{size_right, question1};
ghost use Rattle.pack.specs.Refusal.{layout_no, workflow_no, pack_refusal, open_refusal, opened};

use questions::{Verdict, ask};

// The number of instructions of the workflows before this one.
pub fn first_of(pack: &[u8], workflow: usize) -> usize
    requires { (workflow ≤ 16) × (1 + 2 * workflow ≤ length pack.now) }
    ensures { result ≡ first_of pack.now workflow }
{
    let mut sum: usize = 0;
    for earlier in 0..workflow {
        sum += words::read16(pack, 1 + 2 * earlier) as usize;
    }
    sum
}

// Is each of the m sizes 1 to 256?
fn sizes_in_range(pack: &[u8], m: usize) -> bool
    requires { 1 + 2 * m ≤ length pack.now }
    ensures { result ≡ each m (size_right pack.now) }
{
    (0..m).all(|workflow| {
        let size = words::read16(pack, 1 + 2 * workflow);
        1 <= size && size <= 256
    })
}

// Is there a count, 1 to 16?
#[tactic(auto, unfolding(crate::specs::Questions::question1))]
fn has_count(pack: &[u8]) -> bool
    ensures { result ≡ question1 pack.now }
{
    !pack.is_empty() && 1 <= pack[0] && pack[0] <= 16
}

// Questions 1 to 3.
fn check_layout(pack: &[u8]) -> Verdict
    ensures { result ≡ verdict_of (layout_no pack.now) }
{
    ask(1, has_count(pack))?;
    let m = pack[0] as usize;
    ask(2, 1 + 2 * m <= pack.len())?;
    ask(2, sizes_in_range(pack, m))?;
    let t = first_of(pack, m);
    ask(2, t <= 2048)?;
    ask(3, pack.len() == 1 + 2 * m + 5 * t)
}

// The number of workflows, where there is a first byte.
pub fn count_of(pack: &[u8]) -> u32
    requires { 1 ≤ length pack.now }
    ensures { result ≡ count pack.now }
{
    pack[0] as u32
}

// The number of instructions of a workflow.
pub fn size_at(pack: &[u8], workflow: usize) -> usize
    requires laid { Laid pack.now }
    requires workflow_bound { workflow < count pack.now }
    ensures { result ≡ size_of pack.now workflow }
{
    words::read16(pack, 1 + 2 * workflow) as usize
}

// Where the operation bytes of all workflows begin in the pack, and where their operand bytes do: of what stands behind the sizes a
// fifth is operation bytes.
fn operations_begin(pack: &[u8]) -> usize
    requires { Laid pack.now }
    ensures { result ≡ 1 + 2 * count pack.now }
{
    1 + 2 * pack[0] as usize
}

fn operands_begin(pack: &[u8]) -> usize
    requires { Laid pack.now }
    ensures { result ≡ 1 + 2 * count pack.now + total pack.now }
{
    let operations = operations_begin(pack);
    operations + (pack.len() - operations) / 5
}

// So many bytes from `start` on.
fn part(pack: &[u8], start: usize, count: usize) -> &[u8]
    requires { start + count ≤ length pack.now }
    ensures { result.now ≡ take count (drop start pack.now) }
{
    let end = start + count;
    &pack[start..end]
}

// Questions 4 to 8, workflow by workflow. `first` is the number of instructions of the workflows before.
fn check_workflows(pack: &[u8]) -> Verdict
    requires { Laid pack.now }
    ensures { result ≡ verdict_of (first_no (workflow_no pack.now) (count pack.now) 0) }
{
    let operations = operations_begin(pack);
    let operands = operands_begin(pack);
    let mut first = 0;
    for workflow in 0..pack[0] as usize {
        let size = size_at(pack, workflow);
        let ops = part(pack, operations + first, size);
        let words = part(pack, operands + 4 * first, 4 * size);
        code::check_workflow(ops, words, workflow)?;
        first += size;
    }
    Ok(())
}

// The pack check: questions 1 to 8.
pub fn check(pack: &[u8]) -> Verdict
    ensures { result ≡ verdict_of (pack_refusal pack.now) }
{
    check_layout(pack)?;
    check_workflows(pack)
}

// Opening a workflow: questions 1 to 8 and 17.
pub fn open(pack: &[u8], workflow: u32) -> Verdict
    ensures { result ≡ verdict_of (open_refusal pack.now workflow) }
{
    check(pack)?;
    ask(17, workflow < count_of(pack))
}

// Where the operation bytes of a workflow begin in the pack.
#[tactic(auto, using(crate::proofs::Sizes::few_instructions))]
pub fn operations_at(pack: &[u8], workflow: usize) -> usize
    requires laid { Laid pack.now }
    requires workflow_bound { workflow < count pack.now }
    ensures { result ≡ operations_at pack.now workflow }
{
    operations_begin(pack) + first_of(pack, workflow)
}

// Where its operand bytes begin. Stays so, a function for each array: these and the four below are public under their names, of which docs/
// has `operations` and `operands`; one function with the array as a parameter would leave six wrappers around it, which is no plainer.
#[tactic(auto, using(crate::proofs::Sizes::few_instructions))]
pub fn operands_at(pack: &[u8], workflow: usize) -> usize
    requires laid { Laid pack.now }
    requires workflow_bound { workflow < count pack.now }
    ensures { result ≡ operands_at pack.now workflow }
{
    operands_begin(pack) + 4 * first_of(pack, workflow)
}

// The operation bytes of a workflow: a part of the pack.
#[tactic(auto, unfolding(crate::specs::Layout::operations_of), using(crate::proofs::Sizes::operations_within))]
pub fn operations_part(pack: &[u8], workflow: usize) -> &[u8]
    requires laid { Laid pack.now }
    requires workflow_bound { workflow < count pack.now }
    ensures { result.now ≡ operations_of pack.now workflow }
{
    part(pack, operations_at(pack, workflow), size_at(pack, workflow))
}

// The operand bytes of a workflow: a part of the pack.
#[tactic(auto, unfolding(crate::specs::Layout::operands_of), using(crate::proofs::Sizes::operands_within))]
pub fn operands_part(pack: &[u8], workflow: usize) -> &[u8]
    requires laid { Laid pack.now }
    requires workflow_bound { workflow < count pack.now }
    ensures { result.now ≡ operands_of pack.now workflow }
{
    part(
        pack,
        operands_at(pack, workflow),
        4 * size_at(pack, workflow),
    )
}

// The opened workflow's own operation bytes, a part of the pack; the empty part on refusal.
pub fn operations<'a>(pack: &'a [u8], workflow: u32) -> &'a [u8]
    ensures { result.now ≡ opened (open_refusal pack.now workflow) (operations_of pack.now workflow) }
{
    match open(pack, workflow) {
        Ok(()) => operations_part(pack, workflow as usize),
        Err(_) => &pack[..0],
    }
}

// The opened workflow's own operand bytes, likewise.
pub fn operands<'a>(pack: &'a [u8], workflow: u32) -> &'a [u8]
    ensures { result.now ≡ opened (open_refusal pack.now workflow) (operands_of pack.now workflow) }
{
    match open(pack, workflow) {
        Ok(()) => operands_part(pack, workflow as usize),
        Err(_) => &pack[..0],
    }
}
