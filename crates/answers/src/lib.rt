// Answers for a program in another language: a number, and words in a lent buffer; and the records and the worklist that a call left, in
// their bytes.
#![tactic(auto)]

ghost use Rattle.std.specs.Prelude.{Ok, true, ◌≡◌, [], ◌∷◌, ◌%◌, ◌^◌, ◌≤◌, length};
ghost use Rattle.std.proofs.Math.Option.{Option, some};
ghost use Rattle.questions.specs.Questions.{No};
ghost use Rattle.questions.specs.Verdicts.{verdict_of};
ghost use Rattle.rules.specs.Calls as Rules;
ghost use Rattle.rules.specs.Plain.{accepted};
ghost use Rattle.agents.specs.Answers.{answer_of};
ghost use Rattle.slots.specs.Records.{puts, slots_in};
ghost use Rattle.answers.specs.Answers.{number_of, values_of, with_words, heard, PlaceFits, judged};
ghost use Rattle.answers.specs.Answers.{slots_after, list_after};
ghost use Rattle.worklist.specs.Bytes.{list_in};

use agents::{Accepted, Agent, Answer};
use questions::{Refusal, Verdict};
use worklist::Worklist;

// The low 4 bytes of a number.
fn low(number: usize) -> u32
    ensures { result ≡ number % 2 ^ 32 }
{
    (number % 4_294_967_296) as u32
}

// Writes three words at the start of the answer buffer.
fn write_words(answer: &mut [u8], first: u32, second: u32, third: u32)
    requires { 12 ≤ length answer.old }
    ensures { answer.new ≡ with_words answer.old (first ∷ second ∷ third ∷ []) }
{
    words::write32(answer, 0, first);
    words::write32(answer, 4, second);
    words::write32(answer, 8, third);
}

// Writes the three words of an accepted call's answer, and gives its number.
fn write_accepted(answer: &mut [u8], said: Accepted) -> u32
    requires { 12 ≤ length answer.old }
    ensures written { (result ≡ number_of (answer_of (Ok said)))
        × (answer.new ≡ with_words answer.old (values_of (answer_of (Ok said)))) }
    ensures heard { heard result answer.new ≡ some (answer_of (Ok said)) }
{
    match said {
        Accepted::Done => {
            write_words(answer, 0, 0, 0);
            0
        }
        Accepted::Moved => {
            write_words(answer, 0, 0, 0);
            1
        }
        Accepted::Reply { id, value } => {
            write_words(answer, id, value, 0);
            2
        }
        Accepted::Given { id } => {
            write_words(answer, id, 0, 0);
            4
        }
    }
}

// Writes an answer's three words, and gives its number.
pub fn write_answer(answer: &mut [u8], a: Answer) -> u32
    requires { 12 ≤ length answer.old }
    ensures written { (result ≡ number_of (answer_of a))
        × (answer.new ≡ with_words answer.old (values_of (answer_of a))) }
    ensures heard { PlaceFits (answer_of a) → heard result answer.new ≡ some (answer_of a) }
{
    match a {
        Ok(said) => write_accepted(answer, said),
        Err(no) => {
            let question = no.question as u32;
            write_words(answer, question, low(no.workflow), low(no.instruction));
            3
        }
    }
}

// The answer that a number and the words in the answer buffer say.
pub fn read_answer(number: u32, answer: &[u8]) -> Answer
    requires { 12 ≤ length answer.now }
    ensures { (a : Rules.Answer) → heard number answer.now ≡ some a → PlaceFits a → answer_of result ≡ a }
{
    let first = words::read32(answer, 0);
    let second = words::read32(answer, 4);
    match number {
        0 => Ok(Accepted::Done),
        1 => Ok(Accepted::Moved),
        2 => Ok(Accepted::Reply {
            id: first,
            value: second,
        }),
        4 => Ok(Accepted::Given { id: first }),
        _ => Err(Refusal::at(
            (first % 256) as u8,
            second as usize,
            words::read32(answer, 8) as usize,
        )),
    }
}

// Writes four words behind the three of an answer.
pub fn write_parts(answer: &mut [u8], first: usize, second: usize, third: usize, fourth: usize)
    requires { 28 ≤ length answer.old }
    ensures { answer.new ≡ puts 4 answer.old 12 (first ∷ second ∷ third ∷ fourth ∷ []) 4 }
{
    words::write32(answer, 12, low(first));
    words::write32(answer, 16, low(second));
    words::write32(answer, 20, low(third));
    words::write32(answer, 24, low(fourth));
}

// Writes the figures of a workflow, nine words, behind the three of an answer.
pub fn write_figures(answer: &mut [u8], turns: u32, rows: [u32; 8])
    requires { 48 ≤ length answer.old }
    ensures { answer.new ≡ puts 4 answer.old 12 (turns ∷ rows) 9 }
{
    words::write32(answer, 12, turns);
    slots::write_eight(answer, 16, rows);
}

// Questions alone, as an answer.
pub fn judge(v: Verdict) -> Answer
    ensures { (o : Option No) → v ≡ verdict_of o → answer_of result ≡ judged o }
{
    v?;
    Ok(Accepted::Done)
}

// The records that a call left go back to their bytes. A refused call has left them alone, and bytes that are no record stay so.
pub fn write_back(slots: &mut [u8], a: Answer, agents: [Agent; 8])
    requires { length slots.old ≡ 384 }
    ensures slots_after { slots.new ≡ slots_after (answer_of a) slots.old agents }
    ensures slots_read { accepted (answer_of a) ≡ true → slots_in slots.new ≡ agents }
{
    if a.is_ok() {
        slots::write_slots(slots, agents);
    }
}

// What a call left goes to the slots' bytes, and what it answered to the answer buffer.
pub fn finish(slots: &mut [u8], answer: &mut [u8], said: Answer, agents: [Agent; 8]) -> u32
    requires { (length slots.old ≡ 384) × (12 ≤ length answer.old) }
    ensures written { (result ≡ number_of (answer_of said))
        × (answer.new ≡ with_words answer.old (values_of (answer_of said))) }
    ensures heard { PlaceFits (answer_of said) → heard result answer.new ≡ some (answer_of said) }
    ensures slots_after { slots.new ≡ slots_after (answer_of said) slots.old agents }
    ensures slots_read { accepted (answer_of said) ≡ true → slots_in slots.new ≡ agents }
{
    write_back(slots, said, agents);
    write_answer(answer, said)
}

// The worklist that a call left goes back to its bytes. A refused call has left it alone.
pub fn write_list_back(list: &mut [u8], a: Answer, left: Worklist)
    requires { 132 ≤ length list.old }
    ensures list_after { list.new ≡ list_after (answer_of a) list.old left }
    ensures list_read { accepted (answer_of a) ≡ true → list_in list.new ≡ left }
{
    if a.is_ok() {
        worklist::write_list(list, left);
    }
}

// What a call on the worklist left goes to the list's bytes, and what it answered to the answer buffer.
pub fn finish_list(list: &mut [u8], answer: &mut [u8], a: Answer, left: Worklist) -> u32
    requires { (132 ≤ length list.old) × (12 ≤ length answer.old) }
    ensures written { (result ≡ number_of (answer_of a))
        × (answer.new ≡ with_words answer.old (values_of (answer_of a))) }
    ensures heard { PlaceFits (answer_of a) → heard result answer.new ≡ some (answer_of a) }
    ensures list_after { list.new ≡ list_after (answer_of a) list.old left }
    ensures list_read { accepted (answer_of a) ≡ true → list_in list.new ≡ left }
{
    write_list_back(list, a, left);
    write_answer(answer, a)
}
