// Questions 22, 23 and 9, put to any bytes, behind those of the pack.
#![tactic(auto)]

ghost use Rattle.std.specs.Prelude.{◌≡◌};
ghost use Rattle.questions.specs.Verdicts.{verdict_of};
ghost use Rattle.store.specs.Questions.{question9};
ghost use Rattle.schedule_check.specs.Questions.{event_right, ScheduleLaid, question22, question23, bytes_refusal, schedule_refusal};

use questions::{Verdict, ask};
use store::head::{capacity, partition_count};

// The limits of question 22.
const MOST_REQUESTS: usize = 64;

const MOST_EVENTS: usize = 1024;

// Is an event's kind at most 4, and its index right for it, in a schedule of `requests` requests? An arrival and a retry name a request.
#[tactic(auto, unfolding(crate::specs::Questions::event_right))]
fn event_right(requests: u8, kind: u8, index: u8) -> bool
    ensures { result ≡ event_right requests kind index }
{
    match kind {
        0 | 3 => index < requests,
        1 | 2 | 4 => index == 0,
        _ => false,
    }
}

// Question 22.
#[tactic(auto, using(crate::proofs::Steps::laid_as))]
fn length_right(schedule: &[u8]) -> bool
    ensures { result ≡ question22 schedule.now }
{
    if schedule.len() < 6 {
        return false;
    }
    let requests = schedule[3] as usize;
    let events = words::read16(schedule, 4) as usize;
    if MOST_REQUESTS < requests || MOST_EVENTS < events {
        return false;
    }
    schedule.len() == 6 + 24 * requests + 2 * events
}

// Question 23.
fn events_right(schedule: &[u8]) -> bool
    requires { ScheduleLaid schedule.now }
    ensures { result ≡ question23 schedule.now }
{
    let requests = schedule[3];
    let events = words::read16(schedule, 4) as usize;
    let kinds = 6 + 24 * requests as usize;
    let indexes = kinds + events;
    (0..events).all(|event| event_right(
        requests,
        schedule[kinds + event] >> 4,
        schedule[indexes + event],
    ))
}

// Question 9, of the schedule's P and C.
fn numbers_right(schedule: &[u8]) -> bool
    requires { ScheduleLaid schedule.now }
    ensures { result ≡ question9 schedule.now }
{
    store::head::numbers_right(partition_count(schedule), capacity(schedule))
}

// Questions 22, 23 and 9 of a schedule.
#[tactic(auto, unfolding(crate::specs::Questions::bytes_refusal, questions::specs::Questions::ask))]
fn check_bytes(schedule: &[u8]) -> Verdict
    ensures { result ≡ verdict_of (bytes_refusal schedule.now) }
{
    ask(22, length_right(schedule))?;
    ask(23, events_right(schedule))?;
    ask(9, numbers_right(schedule))
}

// 1 to 8 to the pack, then 22, 23 and 9: the first no.
#[tactic(auto, unfolding(crate::specs::Questions::schedule_refusal, questions::specs::Questions::or_else))]
pub fn check_schedule(pack: &[u8], schedule: &[u8]) -> Verdict
    ensures { result ≡ verdict_of (schedule_refusal pack.now schedule.now) }
{
    pack::check(pack)?;
    check_bytes(schedule)
}
