// How far its log leads a request: the reply that can be worked out from the log. Each block is passed by its log row, and none is run.
#![tactic(auto)]

ghost use Rattle.std.specs.Prelude.{true, List, ◌≡◌, ℕ, ◌<◌, length};
ghost use Rattle.std.proofs.Math.Option.{Option, none, some};
ghost use Rattle.rules.specs.Store.{sought};
ghost use Rattle.rules.specs.Courses.{going, passed};
ghost use Rattle.rules.specs.Logged.{at, behind, onward, reply_from, reply_logged};
ghost use Rattle.code.specs.Meaning.{code_of};
ghost use Rattle.pack.specs.Refusal.{pack_refusal};
ghost use Rattle.pack.specs.Meaning.{pack_of};
ghost use Rattle.store.specs.Layout.{parts_of};
ghost use Rattle.store.specs.Rows.{store_of};
ghost use Rattle.store.specs.Answers.{got_of};
ghost use Rattle.store.specs.Sound.{Sound};
ghost use Rattle.store.specs.Questions.{store_refusal};
ghost use Rattle.contents.specs.Contents.{contents_of};
ghost use Rattle.instruction.specs.Step.{place_of};
ghost use Rattle.meaning.specs.Questions.{question13};
ghost use Rattle.logged.specs.Logged.{logged_by, by_reply, stage_of, Followed, StandsAt};

use course::Next;
use instruction::Spot;

// What is known of an id from book and log.
#[derive(Clone, Copy, Debug, PartialEq, Eq)]
pub enum Logged {
    Unbooked,
    NotYet,
    Through(u32),
}

// Where the log leads a request: it is under way at a place and a step number, or it has come to its reply.
#[derive(Clone, Copy)]
enum Stage {
    UnderWay { place: Spot, step: u16 },
    Finished(u32),
}

// The log row of a step of a request, if the step is logged in a partition.
fn log_row(store: &[u8], partition: usize, id: u32, step: u16) -> Option<u32>
    requires { Sound store.now × (partition < parts_of store.now) }
    ensures { result ≡ got_of ((contents_of (store_of store.now)).log.usual partition id step) }
{
    let key = keys::log_key(id, step);
    store::rows::get(store, partition, key)
}

// Behind the block that opens at `begin`, by its log row: the row's value is the block's result, and step rises by 1.
fn pass_block(ops: &[u8], begin: Spot, step: u16, row: Option<u32>) -> Option<Stage>
    requires { (begin.position < length ops.now) × (step < 65535) }
    ensures { (ws : List ℕ) (logged : Option ℕ) → row ≡ got_of logged →
        stage_of result ≡ behind (passed (code_of ops.now ws) (place_of begin)) step (sought logged) }
{
    let result = row?;
    Some(Stage::UnderWay {
        place: course::behind_block(ops, begin, result),
        step: step + 1,
    })
}

// One move by the log: what the request does next, but a block only where it is logged. None where its next block isn't.
fn move_by_log(
    ops: &[u8],
    operands: &[u8],
    store: &[u8],
    id: u32,
    from: Spot,
    step: u16,
) -> Option<Stage>
    requires { Followed ops.now operands.now store.now × StandsAt ops.now operands.now from step }
    ensures { stage_of result ≡ onward (contents_of (store_of store.now)).log id
        (code_of ops.now operands.now) (some (at (going (place_of from)) step)) }
{
    let upcoming = course::next_of(ops, operands, from);
    let place = upcoming.place;
    match upcoming.next {
        Next::Goes => Some(Stage::UnderWay { place, step }),
        Next::Does(partition) => {
            let row = log_row(store, partition, id, step);
            pass_block(ops, place, step, row)
        }
        Next::Says(value) => Some(Stage::Finished(value)),
    }
}

// From its start on, within as many moves as the workflow has instructions.
fn follow_log(ops: &[u8], operands: &[u8], store: &[u8], id: u32, start: Spot) -> Logged
    requires { Followed ops.now operands.now store.now × StandsAt ops.now operands.now start 0 }
    ensures { result ≡ by_reply (reply_from (contents_of (store_of store.now)).log id
        (code_of ops.now operands.now) (length ops.now) (some (at (going (place_of start)) 0))) }
{
    let mut at = start;
    let mut at_step = 0;
    for _ in 0..ops.len() {
        match move_by_log(ops, operands, store, id, at, at_step) {
            Some(Stage::UnderWay { place, step }) => {
                at = place;
                at_step = step;
            }
            Some(Stage::Finished(value)) => return Logged::Through(value),
            None => return Logged::NotYet,
        }
    }
    Logged::NotYet
}

// The reply of an id that can be worked out from the log, with an accepted pack and a store that passes.
pub fn reply_logged(pack: &[u8], store: &[u8], id: u32) -> Logged
    requires { (pack_refusal pack.now ≡ none) × (store_refusal store.now ≡ none) × (question13 pack.now store.now ≡ true) }
    ensures { result ≡ logged_by ((contents_of (store_of store.now)).book id)
        (reply_logged (pack_of pack.now) (contents_of (store_of store.now)).log id
        ((contents_of (store_of store.now)).book id)) }
{
    let Some(workflow) = book::booked_workflow(store, id) else {
        return Logged::Unbooked;
    };
    let agent = agents::started(id, book::booked_request(store, id, workflow));
    let registers = agent.registers;
    let start = Spot {
        position: agent.position as usize,
        registers,
    };
    let ops = pack::operations_part(pack, workflow as usize);
    let operands = pack::operands_part(pack, workflow as usize);
    follow_log(ops, operands, store, id, start)
}
