// The lines, each put behind the text so far.
#![tactic(auto)]

ghost use Rattle.std.specs.Prelude.{Ok, Err, ◌+◌, ◌≤◌, length};
ghost use Rattle.agents.specs.Answers.{answer_of};
ghost use Rattle.text.specs.Text.{Appended};
ghost use Rattle.lines.specs.Lines.{field, events_line, refused_line, answer_text, answer_line, row_line, log_line, stored_line};

use agents::{Accepted, Answer};
use questions::Refusal;

// A number behind a blank.
pub fn append_field(out: &mut [u8], written: usize, number: u64) -> usize
    requires { written + 21 ≤ length out.old }
    ensures { Appended out.old written (field number) out.new result × (result ≤ written + 21) }
{
    let written = text::append_byte(out, written, b' ');
    text::append_number(out, written, number)
}

// events TOTAL
pub fn events_line(out: &mut [u8], written: usize, total: u64) -> usize
    requires { written + 28 ≤ length out.old }
    ensures { Appended out.old written (events_line total) out.new result × (result ≤ written + 28) }
{
    let written = text::append_bytes(out, written, b"events");
    let written = append_field(out, written, total);
    text::append_byte(out, written, b'\n')
}

// refused N
pub fn refused_line(out: &mut [u8], written: usize, question: u8) -> usize
    requires { written + 29 ≤ length out.old }
    ensures { Appended out.old written (refused_line question) out.new result × (result ≤ written + 29) }
{
    let written = text::append_bytes(out, written, b"refused");
    let written = append_field(out, written, question as u64);
    text::append_byte(out, written, b'\n')
}

// reply ID VALUE
fn append_reply(out: &mut [u8], written: usize, id: u64, value: u64) -> usize
    requires { written + 47 ≤ length out.old }
    ensures { Appended out.old written (answer_text (answer_of (Ok (Accepted.Reply id value)))) out.new result
        × (result ≤ written + 47) }
{
    let written = text::append_bytes(out, written, b"reply");
    let written = append_field(out, written, id);
    append_field(out, written, value)
}

// taken ID
fn append_taken(out: &mut [u8], written: usize, id: u64) -> usize
    requires { written + 47 ≤ length out.old }
    ensures { Appended out.old written (answer_text (answer_of (Ok (Accepted.Given id)))) out.new result
        × (result ≤ written + 47) }
{
    let written = text::append_bytes(out, written, b"taken");
    append_field(out, written, id)
}

// refused N, of an answer: the place that goes with 4 to 8 isn't printed.
fn append_refused(out: &mut [u8], written: usize, no: Refusal) -> usize
    requires { written + 47 ≤ length out.old }
    ensures { Appended out.old written (answer_text (answer_of (Err no))) out.new result × (result ≤ written + 47) }
{
    let written = text::append_bytes(out, written, b"refused");
    append_field(out, written, no.question as u64)
}

// An answer in words.
#[tactic(auto, unfolding(crate::specs::Lines::answer_text, agents::specs::Answers::answer_of), using(crate::proofs::Pieces::answer_as))]
pub fn append_answer(out: &mut [u8], written: usize, answer: Answer) -> usize
    requires { written + 47 ≤ length out.old }
    ensures { Appended out.old written (answer_text (answer_of answer)) out.new result × (result ≤ written + 47) }
{
    match answer {
        Ok(Accepted::Done) => text::append_bytes(out, written, b"done"),
        Ok(Accepted::Moved) => text::append_bytes(out, written, b"moved"),
        Ok(Accepted::Reply { id, value }) => append_reply(out, written, id as u64, value as u64),
        Ok(Accepted::Given { id }) => append_taken(out, written, id as u64),
        Err(no) => append_refused(out, written, no),
    }
}

// An event's number and its answer.
pub fn answer_line(out: &mut [u8], written: usize, event: u64, answer: Answer) -> usize
    requires { written + 69 ≤ length out.old }
    ensures { Appended out.old written (answer_line event (answer_of answer)) out.new result × (result ≤ written + 69) }
{
    let written = text::append_number(out, written, event);
    let written = text::append_byte(out, written, b' ');
    let written = append_answer(out, written, answer);
    text::append_byte(out, written, b'\n')
}

// row PARTITION KEY VALUE
pub fn row_line(out: &mut [u8], written: usize, partition: u64, key: u64, value: u64) -> usize
    requires { written + 88 ≤ length out.old }
    ensures { Appended out.old written (row_line partition key value) out.new result × (result ≤ written + 88) }
{
    let written = text::append_bytes(out, written, b"row");
    let written = append_field(out, written, partition);
    let written = append_field(out, written, key);
    let written = append_field(out, written, value);
    text::append_byte(out, written, b'\n')
}

// log PARTITION ID STEP VALUE
fn log_line(out: &mut [u8], written: usize, partition: u64, id: u64, step: u64, value: u64) -> usize
    requires { written + 88 ≤ length out.old }
    ensures { Appended out.old written (log_line partition id step value) out.new result × (result ≤ written + 88) }
{
    let written = text::append_bytes(out, written, b"log");
    let written = append_field(out, written, partition);
    let written = append_field(out, written, id);
    let written = append_field(out, written, step);
    let written = append_field(out, written, value);
    text::append_byte(out, written, b'\n')
}

// A row by its stored key.
pub fn stored_line(out: &mut [u8], written: usize, partition: u64, key: u64, value: u64) -> usize
    requires { written + 88 ≤ length out.old }
    ensures { Appended out.old written (stored_line partition key value) out.new result × (result ≤ written + 88) }
{
    if keys::is_data(key) {
        return row_line(out, written, partition, keys::data_of(key), value);
    }
    log_line(
        out,
        written,
        partition,
        keys::id_of(key),
        keys::step_of(key),
        value,
    )
}
