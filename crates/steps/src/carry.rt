// A decision carried out: on the record, and as an answer.
ghost use Rattle.std.specs.Prelude.{◌≡◌};
ghost use Rattle.catalogue.specs.Steps.Decide.{record_after, write_of, going, answer_of};
ghost use Rattle.steps.specs.Follows.{Follows};

use catalogue::answers::{Answer, Refusal};
use catalogue::steps::Decision;
use catalogue::workers::Worker;
use catalogue::writes::Write;
use workers::met::met_count;
use workers::records::{bare, begun, idle, kept, queued, taken};

// The record after the step; unchanged by a refusal.
pub fn record_after(w: Worker, d: Decision) -> Worker
    requires { Follows w d }
    ensures { result ≡ record_after w d }
{
    match d {
        Decision::Torn | Decision::Code => w,
        Decision::Going { next, .. } => bare(next),
        Decision::Begins { next, met, .. } => begun(next, met),
        Decision::Keeps { next } => kept(w, next),
        Decision::Meets { next, met } => queued(w, next, met),
        Decision::Takes { next } => taken(w, next),
        Decision::Reply { .. } => idle(),
    }
}

// The one write of the step.
pub fn write_of(d: Decision) -> Write
    ensures { result ≡ write_of d }
{
    match d {
        Decision::Going { write, .. }
        | Decision::Begins { write, .. }
        | Decision::Reply { write, .. } => write,
        _ => Write::Nothing,
    }
}

// Going on, with the number of series that the record after the step has met.
fn going(after: Worker) -> Answer
    ensures { result ≡ going after }
{
    Answer::Going {
        met: met_count(after.reach.met),
    }
}

pub fn answer_of(d: Decision, after: Worker) -> Result<Answer, Refusal>
    ensures { result ≡ answer_of d after }
{
    match d {
        Decision::Torn => Err(Refusal::Torn),
        Decision::Code => Err(Refusal::Code),
        Decision::Reply { number, .. } => Ok(Answer::Reply { number }),
        _ => Ok(going(after)),
    }
}
