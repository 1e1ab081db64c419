// The calls: entry points without a `requires`, each with the promise `Carried`, for any value of what it does not get; order, which
// changes no contents, with one more.
#![tactic(auto)]

ghost use Rattle.std.specs.Prelude.{Ok, ◌≡◌, List, ℕ, true};
ghost use Rattle.agents.specs.declared.Accepted.TheVariants.{Done};
ghost use Rattle.agents.specs.Requests.{asked};
ghost use Rattle.rules.specs.Calls.{Call};
ghost use Rattle.agents.specs.declared.Agent.{Agent};
ghost use Rattle.worklist.specs.declared.Worklist.{Worklist};
ghost use Rattle.meaning.specs.Carried.{Carried};
ghost use Rattle.rules.specs.Plain.{accepted};
ghost use Rattle.agents.specs.Answers.{answer_of};
ghost use Rattle.store.specs.Ordered.{InOrder};
ghost use Rattle.runtime.specs.Known.{known_in};

use agents::{Accepted, Agent, Answer, Request};
use logged::Logged;
use questions::{Refusal, ask};
use worklist::Worklist;

// Crash empties a slot.
pub fn crash(pack: &[u8], store: &[u8], agents: &mut [Agent; 8], slot: usize) -> Answer
    ensures { (list : Worklist) →
        Carried pack.now (record { store = store.now; records = agents.old; list = list }) (Call.crash slot)
        result (record { store = store.now; records = agents.new; list = list }) }
{
    lent_check::check_to_16(pack, store, agents, slot, true)?;
    agents[slot] = agents::no_agent();
    Ok(Accepted::Done)
}

// Restart empties all slots, and marks all as waiting in a worklist that passes 25; it asks nothing and never refuses, so that its answer
// is always the same, and none is given. Whatever records there were, they make no difference.
pub fn restart(agents: &mut [Agent; 8], list: &mut Worklist)
    ensures { (pack store : List ℕ) (records : List Agent) →
        Carried pack (record { store = store; records = records; list = list.old })
        Call.restart (Ok Done) (record { store = store; records = agents.new; list = list.new }) }
{
    *agents = agents::no_agents();
    *list = worklist::restarted(*list);
}

// Order puts the rows of an earlier store in order. It gets the store only: no pack is asked and no slot is looked at. `Carried` sees a
// store by its contents, which order leaves; that the rows are in order afterwards is said beside it.
pub fn order(store: &mut [u8]) -> Answer
    ensures { ((pack : List ℕ) (records : List Agent) (list : Worklist) →
        Carried pack (record { store = store.old; records = records; list = list })
        Call.order result (record { store = store.new; records = records; list = list }))
        × (accepted (answer_of result) ≡ true → InOrder store.old store.new) }
{
    ordering::order(store)?;
    Ok(Accepted::Done)
}

// Retry starts an agent from the book.
pub fn retry(pack: &[u8], store: &[u8], agents: &mut [Agent; 8], slot: usize, id: u32) -> Answer
    ensures { (list : Worklist) →
        Carried pack.now (record { store = store.now; records = agents.old; list = list }) (Call.retry slot id)
        result (record { store = store.now; records = agents.new; list = list }) }
{
    lent_check::check_to_16(pack, store, agents, slot, false)?;
    let Some(workflow) = book::booked_workflow(store, id) else {
        return Err(Refusal::number(20));
    };
    agents[slot] = agents::started(id, book::booked_request(store, id, workflow));
    Ok(Accepted::Done)
}

// Arrival books a new id, then starts an agent; a known id only starts one. Id 0 is turned down, known or not, and so is an id below the
// floor.
pub fn arrival(
    pack: &[u8],
    store: &mut [u8],
    agents: &mut [Agent; 8],
    slot: usize,
    id: u32,
    q: Request,
) -> Answer
    ensures { (list : Worklist) →
        Carried pack.now (record { store = store.old; records = agents.old; list = list })
        (Call.arrival slot id q.workflow (asked q).arguments)
        result (record { store = store.new; records = agents.new; list = list }) }
{
    lent_check::check_to_16(pack, store, agents, slot, false)?;
    ask(24, id != 0)?;
    ask(30, book::floor(store) <= id)?;
    ask(17, q.workflow < pack::count_of(pack))?;
    booking::book_request(store, id, q)?;
    agents[slot] = agents::started(id, q);
    Ok(Accepted::Done)
}

// Turn: the agent in a slot does its next instruction, its whole block, or its reply.
pub fn turn(pack: &[u8], store: &mut [u8], agents: &mut [Agent; 8], slot: usize) -> Answer
    ensures { (list : Worklist) →
        Carried pack.now (record { store = store.old; records = agents.old; list = list }) (Call.turn slot)
        result (record { store = store.new; records = agents.new; list = list }) }
{
    lent_check::check_to_16(pack, store, agents, slot, true)?;
    let turned = turn::turn_agent(pack, store, agents[slot]);
    agents[slot] = turned.agent;
    turned.answer
}

// Add puts a booked id on the worklist, at its end; a listed one changes nothing.
pub fn add(pack: &[u8], store: &[u8], agents: &[Agent; 8], list: &mut Worklist, id: u32) -> Answer
    ensures { Carried pack.now (record { store = store.now; records = agents.now; list = list.old })
        (Call.list_add id) result (record { store = store.now; records = agents.now; list = list.new }) }
{
    lent_check::check_to_25(pack, store, agents, list)?;
    ask(26, worklist::can_list(*list, id))?;
    ask(20, book::booked_workflow(store, id).is_some())?;
    *list = worklist::with_id(*list, id);
    Ok(Accepted::Done)
}

// Take gives the first waiting id, and marks it.
pub fn take(pack: &[u8], store: &[u8], agents: &[Agent; 8], list: &mut Worklist) -> Answer
    ensures { Carried pack.now (record { store = store.now; records = agents.now; list = list.old })
        Call.list_take result (record { store = store.now; records = agents.now; list = list.new }) }
{
    lent_check::check_to_25(pack, store, agents, list)?;
    let took = worklist::take_first(*list);
    let Some(id) = took.id else {
        return Err(Refusal::number(27));
    };
    *list = took.list;
    Ok(Accepted::Given { id })
}

// Done removes a taken id from the worklist, when its log leads through to RETURN.
pub fn done(pack: &[u8], store: &[u8], agents: &[Agent; 8], list: &mut Worklist, id: u32) -> Answer
    ensures { Carried pack.now (record { store = store.now; records = agents.now; list = list.old })
        (Call.list_done id) result (record { store = store.now; records = agents.now; list = list.new }) }
{
    lent_check::check_to_25(pack, store, agents, list)?;
    ask(27, worklist::is_taken(*list, id))?;
    let Logged::Through(_) = logged::reply_logged(pack, store, id) else {
        return Err(Refusal::number(27));
    };
    *list = worklist::without_id(*list, id);
    Ok(Accepted::Done)
}

// Retire removes the book and log rows of every id below the floor. It reads slots and worklist, and writes to the store alone.
pub fn retire(
    pack: &[u8],
    store: &mut [u8],
    agents: &[Agent; 8],
    list: &Worklist,
    floor: u32,
) -> Answer
    ensures { Carried pack.now (record { store = store.old; records = agents.now; list = list.now })
        (Call.retire floor) result (record { store = store.new; records = agents.now; list = list.now }) }
{
    lent_check::check_to_25(pack, store, agents, list)?;
    let retirable = retirable::all_retirable(pack, store, *agents, *list, floor);
    ask(28, retirable)?;
    ask(29, retirable::any_below(store, floor))?;
    retiring::retire_rows(store, floor);
    Ok(Accepted::Done)
}

// The reply of a booked request, worked out from the log, or none where the log doesn't lead to it yet: it reads pack and store, and is no
// call of an agent.
pub fn reply(pack: &[u8], store: &[u8], id: u32) -> Result<Option<u32>, Refusal>
    ensures { result ≡ known_in pack.now store.now id }
{
    lent_check::check_to_13(pack, store)?;
    match logged::reply_logged(pack, store, id) {
        Logged::Through(value) => Ok(Some(value)),
        Logged::NotYet => Ok(None),
        Logged::Unbooked => Err(Refusal::number(20)),
    }
}
