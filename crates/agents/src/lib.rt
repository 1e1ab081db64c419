// Requests as they arrive; the records of agents, by value, eight in an array; the answers of the calls.
#![tactic(auto)]

ghost use Rattle.std.specs.Prelude.{ℕ, length, ◌≡◌, ◌<◌, set, replicate};
ghost use Rattle.agents.specs.Requests.{asked};
ghost use Rattle.rules.specs.Calls.{is_of, in_no_slot};
ghost use Rattle.agents.specs.Slots.{agent_at, no_agent, started_with, placed, is_blank, agent_of, slots_of};

use questions::Refusal;

// A request: the number of its workflow and its four arguments.
#[derive(Clone, Copy, Debug, PartialEq, Eq)]
pub struct Request {
    pub workflow: u32,
    pub a0: u32,
    pub a1: u32,
    pub a2: u32,
    pub a3: u32,
}

// An agent record: in use, id, position, step number, eight registers. An empty slot is all zero.
#[derive(Clone, Copy, Debug, PartialEq, Eq)]
pub struct Agent {
    pub in_use: bool,
    pub id: u32,
    pub position: u16,
    pub step: u16,
    pub registers: [u32; 8],
}

// What an accepted call answers: that it is done, that an agent moved on, a reply to an id, or the id that a take gives.
#[derive(Clone, Copy, Debug, PartialEq, Eq)]
pub enum Accepted {
    Done,
    Moved,
    Reply { id: u32, value: u32 },
    Given { id: u32 },
}

// What a call answers: it is accepted, or refused with the first no of its questions.
pub type Answer = Result<Accepted, Refusal>;

// An empty slot is all zero.
pub fn no_agent() -> Agent
    ensures { result ≡ no_agent }
{
    Agent {
        in_use: false,
        id: 0,
        position: 0,
        step: 0,
        registers: [0u32; 8],
    }
}

// Every slot empty.
pub fn no_agents() -> [Agent; 8]
    ensures { result ≡ replicate 8 no_agent }
{
    [no_agent(); 8]
}

// A started agent: position 0, step 0, the arguments in registers 0 to 3, zero in 4 to 7.
pub fn started(id: u32, q: Request) -> Agent
    ensures { result ≡ started_with id (asked q) }
{
    Agent {
        in_use: true,
        id,
        position: 0,
        step: 0,
        registers: [q.a0, q.a1, q.a2, q.a3, 0, 0, 0, 0],
    }
}

// The agent at another place and step.
pub fn placed(a: Agent, position: u16, registers: [u32; 8], step: u16) -> Agent
    ensures { result ≡ placed a (record { position = position; registers = registers }) step }
{
    Agent {
        in_use: true,
        id: a.id,
        position,
        step,
        registers,
    }
}

// Is a record that is not in use all zero?
#[tactic(auto, unfolding(crate::specs::Slots::is_blank), using(crate::proofs::Blank::blank_registers))]
pub fn is_blank(a: Agent) -> bool
    ensures { result ≡ is_blank a }
{
    a.id == 0 && a.position == 0 && a.step == 0 && a.registers == [0; 8]
}

// Is it the record of an agent of this id? An empty record's id is 0, and no agent's.
#[tactic(auto, using(crate::proofs::InSlots::of_same, crate::proofs::InSlots::of_other))]
fn is_of(a: &Agent, id: u32) -> bool
    ensures { result ≡ is_of id (agent_of a.now) }
{
    a.id == id && a.in_use
}

// Is no agent of this id in a slot?
pub fn in_no_slot(agents: [Agent; 8], id: u32) -> bool
    ensures { result ≡ in_no_slot (slots_of agents) id }
{
    agents.iter().all(|a| !is_of(a, id))
}

// Eight records by value have eight registers each: their type says so, and whoever holds them by reference learns it here. Nothing is
// done.
pub fn eight_registers(records: [Agent; 8])
    ensures { (slot : ℕ) → slot < 8 → length (agent_at records slot).registers ≡ 8 }
{
    let _records = records;
}
