// The call that an event lists, made on the runtime. A schedule lists nothing for a worker: its worklist is and stays empty.
ghost use Rattle.std.specs.Prelude.{true, ◌≡◌, ◌<◌};
ghost use Rattle.rules.specs.Calls.{Call};
ghost use Rattle.worklist.specs.Worklist.{no_worklist};
ghost use Rattle.meaning.specs.Carried.{Carried};
ghost use Rattle.schedule_check.specs.Layout.{request_count, event_count, request_id, request_workflow, request_arguments};
ghost use Rattle.schedule_check.specs.Questions.{ScheduleLaid, Allowed, event_right};
ghost use Rattle.schedule.specs.Events.{call_of, call_at};

use agents::{Accepted, Agent, Answer, Request};

// The arrival of a request.
fn arrival_of(
    pack: &[u8],
    schedule: &[u8],
    store: &mut [u8],
    agents: &mut [Agent; 8],
    slot: usize,
    request: usize,
) -> Answer
    requires { ScheduleLaid schedule.now × (request < request_count schedule.now) }
    ensures { Carried pack.now (record { store = store.old; records = agents.old; list = no_worklist })
        (Call.arrival slot (request_id schedule.now request) (request_workflow schedule.now request)
        (request_arguments schedule.now request))
        result (record { store = store.new; records = agents.new; list = no_worklist }) }
{
    let from = 6 + 24 * request;
    let id = words::read32(schedule, from);
    let q = Request {
        workflow: words::read32(schedule, from + 4),
        a0: words::read32(schedule, from + 8),
        a1: words::read32(schedule, from + 12),
        a2: words::read32(schedule, from + 16),
        a3: words::read32(schedule, from + 20),
    };
    runtime::arrival(pack, store, agents, slot, id, q)
}

// The retry of a request.
fn retry_of(
    pack: &[u8],
    schedule: &[u8],
    store: &[u8],
    agents: &mut [Agent; 8],
    slot: usize,
    request: usize,
) -> Answer
    requires { ScheduleLaid schedule.now × (request < request_count schedule.now) }
    ensures { Carried pack.now (record { store = store.now; records = agents.old; list = no_worklist })
        (Call.retry slot (request_id schedule.now request))
        result (record { store = store.now; records = agents.new; list = no_worklist }) }
{
    let id = words::read32(schedule, 6 + 24 * request);
    runtime::retry(pack, store, agents, slot, id)
}

// The call of an event, by its kind, slot and request index.
fn call_of(
    pack: &[u8],
    schedule: &[u8],
    store: &mut [u8],
    agents: &mut [Agent; 8],
    kind: u8,
    slot: usize,
    request: u8,
) -> Answer
    requires { ScheduleLaid schedule.now × (event_right (request_count schedule.now) kind request ≡ true) }
    ensures { Carried pack.now (record { store = store.old; records = agents.old; list = no_worklist })
        (call_of schedule.now kind slot request)
        result (record { store = store.new; records = agents.new; list = no_worklist }) }
{
    match kind {
        0 => arrival_of(pack, schedule, store, agents, slot, request as usize),
        1 => runtime::turn(pack, store, agents, slot),
        2 => runtime::crash(pack, store, agents, slot),
        3 => retry_of(pack, schedule, store, agents, slot, request as usize),
        _ => {
            runtime::restart(agents, &mut worklist::no_worklist());
            Ok(Accepted::Done)
        }
    }
}

// The call of an event, by its number.
pub fn call_event(
    pack: &[u8],
    schedule: &[u8],
    store: &mut [u8],
    agents: &mut [Agent; 8],
    event: usize,
) -> Answer
    requires { Allowed schedule.now × (event < event_count schedule.now) }
    ensures { Carried pack.now (record { store = store.old; records = agents.old; list = no_worklist })
        (call_at schedule.now event)
        result (record { store = store.new; records = agents.new; list = no_worklist }) }
{
    let kinds = 6 + 24 * schedule[3] as usize;
    let events = words::read16(schedule, 4) as usize;
    let kind_and_slot = schedule[kinds + event];
    let request = schedule[kinds + events + event];
    call_of(
        pack,
        schedule,
        store,
        agents,
        kind_and_slot / 16,
        (kind_and_slot % 16) as usize,
        request,
    )
}
