// The turn of one agent's record that is lent by `&mut` and moved on in place.
#![tactic(auto)]

ghost use Rattle.lent.specs.Alone.{TurnedAlone};

use agents::{Agent, Answer};
use turn::Turned;

// By value: the turn of slot 0 of slots that hold this record and seven empty ones.
pub fn turn_one(pack: &[u8], store: &mut [u8], agent: Agent) -> Turned
    ensures { TurnedAlone pack.now store.old agent result.answer result.agent store.new }
{
    let mut slots = agents::no_agents();
    slots[0] = agent;
    let answer = runtime::turn(pack, store, &mut slots, 0);
    Turned {
        answer,
        agent: slots[0],
    }
}

// In place: the lent record becomes what the turn left. Refused, it stays as it is, and so does the store.
pub fn turn_lent<'p, 's, 'a>(pack: &'p [u8], store: &'s mut [u8], agent: &'a mut Agent) -> Answer
    ensures { TurnedAlone pack.now store.old agent.old result agent.new store.new }
{
    let t = turn_one(pack, store, *agent);
    *agent = t.agent;
    t.answer
}
