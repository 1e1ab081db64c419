// The turn of one agent, by value: it acts on what the agent does next, which is to stand elsewhere, to do a whole block, or to reply.
#![tactic(auto)]

ghost use Rattle.std.specs.Prelude.{List, ◌≡◌, ℕ, ◌≤◌, ◌<◌, length};
ghost use Rattle.code.specs.Meaning.{code_of};
ghost use Rattle.store.specs.Sound.{Sound};
ghost use Rattle.instruction.specs.Step.{place_of};
ghost use Rattle.turn.specs.Turned.{Turnable, workflow_in, moved_to, replied, behind_block, TurnedBy};

use agents::{Accepted, Agent, Answer};
use block::write::NoRoom;
use course::Next;
use instruction::Spot;
use questions::Refusal;

// What the turn of one agent answers, and the record that it leaves.
#[derive(Clone, Copy)]
pub struct Turned {
    pub answer: Answer,
    pub agent: Agent,
}

// The workflow of a booked id.
fn workflow_of(store: &[u8], id: u32) -> usize
    requires { Sound store.now }
    ensures { result ≡ workflow_in store.now id }
{
    book::booked_workflow(store, id).unwrap_or(0) as usize
}

// The agent stands at another place, at this step.
fn stand_at(a: Agent, to: Spot, step: u16) -> Turned
    requires { to.position < 65536 }
    ensures { result ≡ moved_to a (place_of to) step }
{
    let registers = to.registers;
    Turned {
        answer: Ok(Accepted::Moved),
        agent: agents::placed(a, to.position as u16, registers, step),
    }
}

// Behind the block that opens at `begin`, by what it came to.
fn leave_block(ops: &[u8], a: Agent, begin: Spot, outcome: Result<u32, NoRoom>) -> Turned
    requires { (begin.position < length ops.now) × (length ops.now ≤ 256) × (a.step < 65535) }
    ensures { (ws : List ℕ) → result ≡ behind_block (code_of ops.now ws) a (place_of begin) outcome }
{
    match outcome {
        Ok(value) => stand_at(a, course::behind_block(ops, begin, value), a.step + 1),
        Err(NoRoom) => Turned {
            answer: Err(Refusal::number(21)),
            agent: a,
        },
    }
}

// The agent replies, and its slot is empty.
fn reply(a: Agent, value: u32) -> Turned
    ensures { result ≡ replied a value }
{
    Turned {
        answer: Ok(Accepted::Reply { id: a.id, value }),
        agent: agents::no_agent(),
    }
}

// One turn of an agent that is sound, with an accepted pack and a store that passes: what it does next is done.
pub fn turn_agent(pack: &[u8], store: &mut [u8], a: Agent) -> Turned
    requires { Turnable pack.now store.old a }
    ensures { TurnedBy pack.now store.old a result store.new }
{
    let workflow = workflow_of(store, a.id);
    let ops = pack::operations_part(pack, workflow);
    let operands = pack::operands_part(pack, workflow);
    let registers = a.registers;
    let from = Spot {
        position: a.position as usize,
        registers,
    };
    let upcoming = course::next_of(ops, operands, from);
    let next = upcoming.next;
    let place = upcoming.place;
    match next {
        Next::Goes => stand_at(a, place, a.step),
        Next::Does(partition) => {
            let copy = place.registers;
            let outcome = block::write::through_block(
                ops,
                operands,
                store,
                partition,
                place.position,
                copy,
                a.id,
                a.step,
            );
            leave_block(ops, a, place, outcome)
        }
        Next::Says(value) => reply(a, value),
    }
}
