// The run of a schedule, printed into a buffer that the caller lends, on a store in another.
ghost use Rattle.std.specs.Prelude.{[], ◌≡◌, ◌+◌, ◌≤◌, length, take, drop, replicate};
ghost use Rattle.store.specs.Layout.{parts_of, cap_of};
ghost use Rattle.agents.specs.Slots.{no_agent};
ghost use Rattle.worklist.specs.Worklist.{no_worklist};
ghost use Rattle.chain.specs.Chain.{Chain};
ghost use Rattle.schedule_check.specs.Questions.{Allowed};
ghost use Rattle.schedule.specs.Run.{RunPrints, store_size, WholeRun, Printed};
ghost use Rattle.schedule.specs.Going.{Went};

use crate::calls::call_event;
use schedule_check::check_schedule;

// Makes the calls of all events, and prints their answers.
fn run_events(
    pack: &[u8],
    schedule: &[u8],
    store: &mut [u8],
    out: &mut [u8],
    written: usize,
) -> usize
    requires { Allowed schedule.now
        × Chain pack.now (parts_of schedule.now) (cap_of schedule.now) []
        (record { store = store.old; records = replicate 8 no_agent; list = no_worklist })
        × (written + 70656 ≤ length out.old) }
    ensures { Went pack.now schedule.now out.old written store.new out.new result
        × (result ≤ written + 70656) }
{
    let events = words::read16(schedule, 4) as usize;
    let mut agents = agents::no_agents();
    let mut written = written;
    for event in 0..events {
        let answer = call_event(pack, schedule, store, &mut agents, event);
        written = lines::answer_line(out, written, event as u64, answer);
    }
    written
}

// The run on a store that fits the schedule's P and C.
fn run_on(pack: &[u8], schedule: &[u8], store: &mut [u8], out: &mut [u8]) -> usize
    requires { Allowed schedule.now × (length store.old ≡ store_size schedule.now) × (524288 ≤ length out.old) }
    ensures { RunPrints pack.now schedule.now store.new (take result out.new)
        × (result ≤ length out.new) × (drop result out.new ≡ drop result out.old) }
{
    let events = words::read16(schedule, 4) as u64;
    let partitions = store::head::partition_count(schedule);
    let cap = store::head::capacity(schedule);
    // The schedule was checked, so this is no refusal.
    let _ = store_write::create::create(store, partitions, cap);
    let written = lines::events_line(out, 0, events);
    let written = run_events(pack, schedule, store, out, written);
    listing::print_store(store, out, written)
}

// The run on the first bytes of a buffer.
fn run_in(pack: &[u8], schedule: &[u8], store: &mut [u8], out: &mut [u8]) -> usize
    requires { Allowed schedule.now × (27669 ≤ length store.old) × (524288 ≤ length out.old) }
    ensures { WholeRun pack.now schedule.now store.old store.new
        (take result out.new)
        × (result ≤ length out.new) × (drop result out.new ≡ drop result out.old) }
{
    let size = store::head::store_size(
        store::head::partition_count(schedule),
        store::head::capacity(schedule),
    );
    run_on(pack, schedule, &mut store[..size], out)
}

// What the program prints: its first bytes in `out`, as many as it answers; behind them `out` is as it was. The store that is left stands
// in the first bytes of `store`, which has room for the longest, 3 + 2 × 9 + 12 × 256 × 9. `out` has room for all that a run can print. No
// bytes of pack and schedule are taken for granted.
pub fn run(pack: &[u8], schedule: &[u8], store: &mut [u8; 27_669], out: &mut [u8; 524_288]) -> usize
    ensures { Printed pack.now schedule.now store.old store.new
        (take result out.new)
        × (result ≤ length out.new) × (drop result out.new ≡ drop result out.old) }
{
    match check_schedule(pack, schedule) {
        Ok(()) => run_in(pack, schedule, store, out),
        Err(no) => lines::refused_line(out, 0, no.question),
    }
}
