// Questions put in order, of which the first no wins, and the verdict on them.
#![tactic(auto)]

ghost use Rattle.std.specs.Prelude.{◌≡◌};
ghost use Rattle.std.proofs.Math.Option.{none, some};
ghost use Rattle.questions.specs.Questions.{no, number, ask};
ghost use Rattle.questions.specs.Verdicts.{refusal_of, verdict_of};

// A no: the question's number, and with 4 to 8 the workflow and the instruction counted within it, otherwise 0 and 0.
#[derive(Clone, Copy, Debug, PartialEq, Eq)]
pub struct Refusal {
    pub question: u8,
    pub workflow: usize,
    pub instruction: usize,
}

impl Refusal {
    // A no at a place.
    pub fn at(question: u8, workflow: usize, instruction: usize) -> Refusal
        ensures { result ≡ refusal_of (no question workflow instruction) }
    {
        Refusal {
            question,
            workflow,
            instruction,
        }
    }

    // A no to a question that goes with no place.
    pub fn number(question: u8) -> Refusal
        ensures { result ≡ refusal_of (number question) }
    {
        Refusal::at(question, 0, 0)
    }
}

// What the questions that were put came to: all yes, or the first no.
pub type Verdict = Result<(), Refusal>;

// The verdict of a no at a place.
pub fn refused(question: u8, workflow: usize, instruction: usize) -> Verdict
    ensures { result ≡ verdict_of (some (no question workflow instruction)) }
{
    Err(Refusal::at(question, workflow, instruction))
}

// A question that goes with a place: after a yes the rest is asked.
#[tactic(auto, unfolding(crate::specs::Questions::ask))]
pub fn ask_at(question: u8, workflow: usize, instruction: usize, yes: bool) -> Verdict
    ensures { result ≡ verdict_of (ask (no question workflow instruction) yes none) }
{
    if yes {
        return Ok(());
    }
    refused(question, workflow, instruction)
}

// A question that goes with no place.
pub fn ask(question: u8, yes: bool) -> Verdict
    ensures { result ≡ verdict_of (ask (number question) yes none) }
{
    ask_at(question, 0, 0, yes)
}
