// Executes the two forms with references on a pack that it reads from standard input, the whole case's: a reader, which carries the lent
// pack with the workflow that it has open, and the record of one agent, lent by `&mut` and moved on in place.
#![tactic(auto)]

ghost use Rattle.std.specs.Prelude.{◌≡◌, length};
ghost use Rattle.questions.specs.Verdicts.{verdict_of};
ghost use Rattle.pack.specs.Refusal.{open_refusal};
ghost use Rattle.lent.specs.Alone.{TurnedAlone};

use agents::{Accepted, Agent, Answer, Request};
use cases::input::{read_full, zeros};
use questions::Verdict;
use reader::Instruction;
use std::io;
use std::io::Write;
use turn::Turned;

fn write_text<W: Write>(out: &mut W, text: &[u8]) -> io::Result<()> {
    out.write_all(text)
}

// A number behind a blank.
fn write_number<W: Write>(out: &mut W, n: u64) -> io::Result<()> {
    write!(out, " {n}")
}

fn write_word<W: Write>(out: &mut W, w: u32) -> io::Result<()> {
    write_number(out, w as u64)
}

// A byte in hex behind a blank.
fn write_byte<W: Write>(out: &mut W, b: u8) -> io::Result<()> {
    write!(out, " {b:02x}")
}

// A line of bytes in hex.
fn write_bytes<W: Write>(out: &mut W, title: &[u8], s: &[u8]) -> io::Result<()> {
    write_text(out, title)?;
    for byte in s {
        write_byte(out, *byte)?;
    }
    write_text(out, b"\n")
}

fn write_verdict<W: Write>(out: &mut W, v: Verdict) -> io::Result<()> {
    match v {
        Ok(()) => write_text(out, b"accepted\n"),
        Err(no) => {
            write_text(out, b"refused")?;
            write_number(out, no.question as u64)?;
            write_number(out, no.workflow as u64)?;
            write_number(out, no.instruction as u64)?;
            write_text(out, b"\n")
        }
    }
}

// instruction INDEX BYTE WORD
fn write_instruction<W: Write>(out: &mut W, i: usize, x: Instruction) -> io::Result<()> {
    write_text(out, b"instruction")?;
    write_number(out, i as u64)?;
    write_byte(out, x.byte)?;
    write_word(out, x.word)?;
    write_text(out, b"\n")
}

// The verdict that a reader has of its opening.
fn verdict_of(pack: &[u8], workflow: u32) -> Verdict
    ensures { result ≡ verdict_of (open_refusal pack.now workflow) }
{
    let r = reader::open(pack, workflow);
    r.verdict
}

// A reader's instructions, and what stands past the end.
fn write_instructions<W: Write>(
    out: &mut W,
    pack: &[u8],
    workflow: u32,
    size: usize,
) -> io::Result<()> {
    for i in 0..=size {
        write_instruction(out, i, reader::instruction_of(pack, workflow, i))?;
    }
    Ok(())
}

// All that there is of one workflow: a reader's verdict, the parts, a reader's instructions.
fn write_reader<W: Write>(out: &mut W, title: &[u8], pack: &[u8], workflow: u32) -> io::Result<()> {
    write_text(out, title)?;
    write_verdict(out, verdict_of(pack, workflow))?;
    let operations = pack::operations(pack, workflow);
    write_bytes(out, b"operations", operations)?;
    write_bytes(out, b"operands", pack::operands(pack, workflow))?;
    write_instructions(out, pack, workflow, operations.len())
}

// A workflow, one that the pack does not have, and the pack cut short by a byte.
fn write_readers<W: Write>(out: &mut W, pack: &[u8]) -> io::Result<()> {
    write_reader(out, b"workflow 0: ", pack, 0)?;
    write_reader(out, b"workflow 1: ", pack, 1)?;
    match pack {
        [shorter @ .., _] => write_reader(out, b"a byte short: ", shorter, 0),
        [] => Ok(()),
    }
}

// A turn by value: the record is lent, and what the turn left of it is read back.
fn turned(pack: &[u8], store: &mut [u8], agent: Agent) -> Turned
    ensures { TurnedAlone pack.now store.old agent result.answer result.agent store.new }
{
    let mut lent = agent;
    let answer = lent::turn_lent(pack, store, &mut lent);
    Turned {
        answer,
        agent: lent,
    }
}

fn write_registers<W: Write>(out: &mut W, registers: [u32; 8]) -> io::Result<()> {
    for register in registers {
        write_word(out, register)?;
    }
    Ok(())
}

// record IN_USE ID POSITION STEP R0 .. R7
fn write_record<W: Write>(out: &mut W, a: Agent) -> io::Result<()> {
    write_text(out, b"record")?;
    write_number(out, a.in_use as u64)?;
    write_word(out, a.id)?;
    write_number(out, a.position as u64)?;
    write_number(out, a.step as u64)?;
    let registers = a.registers;
    write_registers(out, registers)?;
    write_text(out, b"\n")
}

// A call's answer, and the record that it left.
fn write_call<W: Write>(out: &mut W, answer: Answer, a: Agent) -> io::Result<()> {
    case_print::print::print_answer(out, answer)?;
    write_record(out, a)
}

// The turns of a record until one is no move, at most `n`. The answer is the record that they left.
fn write_turns<W: Write>(
    out: &mut W,
    pack: &[u8],
    store: &mut [u8],
    agent: Agent,
    n: usize,
) -> io::Result<Agent> {
    let mut left = agent;
    for _ in 0..n {
        let turned = turned(pack, store, left);
        left = turned.agent;
        write_call(out, turned.answer, left)?;
        if !matches!(turned.answer, Ok(Accepted::Moved)) {
            break;
        }
    }
    Ok(left)
}

// The agent of request 7 in slot 0: what its arrival left there.
fn started<W: Write>(out: &mut W, pack: &[u8], store: &mut [u8]) -> io::Result<Agent> {
    let q = Request {
        workflow: 0,
        a0: 100,
        a1: 200,
        a2: 30,
        a3: 0,
    };
    let mut agents = agents::no_agents();
    let answer = runtime::arrival(pack, store, &mut agents, 0, 7, q);
    write_call(out, answer, agents[0])?;
    Ok(agents[0])
}

// That agent from its arrival to its reply, and one turn more, with the store after each of the two.
fn write_agent<W: Write>(out: &mut W, pack: &[u8], store: &mut [u8]) -> io::Result<()> {
    write_text(out, b"create: ")?;
    write_verdict(out, store_write::create::create(store, 2, 5))?;
    let a = started(out, pack, store)?;
    let left = write_turns(out, pack, store, a, 12)?;
    case_print::print::print_store(out, store)?;
    write_turns(out, pack, store, left, 1)?;
    case_print::print::print_store(out, store)
}

fn main(rt: HostRuntime) -> io::Result<()> {
    // More bytes than any pack that is right has.
    let mut buffer = zeros::<65_536>();
    let read = read_full(&mut rt.stdin(), &mut buffer)?;
    let pack = &buffer[..read];
    let mut store = [0u8; 189];
    let mut out = io::writer(&rt);
    write_readers(&mut out, pack)?;
    write_agent(&mut out, pack, &mut store)
}
