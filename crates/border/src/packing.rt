// The answers of the calls, each as one number.
ghost use Rattle.std.specs.Prelude.{◌≡◌};
ghost use Rattle.border.specs.Packing.{packed_answer, packed_listed, packed_made, packed_ran};

use calls::refusal::refusal_number;
use catalogue::answers::{Answer, Refusal};
use catalogue::script::RunError;

#[tactic(auto, unfolding(crate::specs::Packing::packed_answer))]
pub fn packed_answer(answer: Result<Answer, Refusal>) -> u64
    ensures { result ≡ packed_answer answer }
{
    match answer {
        Ok(Answer::Going { met }) => 256 * (met as u64),
        Ok(Answer::Reply { number }) => number as u64,
        Err(refusal) => refusal_number(refusal) as u64,
    }
}

#[tactic(auto, unfolding(crate::specs::Packing::packed_listed))]
pub fn packed_listed(answer: Result<u32, Refusal>) -> u64
    ensures { result ≡ packed_listed answer }
{
    match answer {
        Ok(bytes) => 256 * (bytes as u64),
        Err(refusal) => refusal_number(refusal) as u64,
    }
}

#[tactic(auto, unfolding(crate::specs::Packing::packed_made))]
pub fn packed_made(answer: Result<(), Refusal>) -> u64
    ensures { result ≡ packed_made answer }
{
    match answer {
        Ok(()) => 0,
        Err(refusal) => refusal_number(refusal) as u64,
    }
}

#[tactic(auto, unfolding(crate::specs::Packing::packed_ran))]
pub fn packed_ran(answer: Result<u32, RunError>) -> u64
    ensures { result ≡ packed_ran answer }
{
    match answer {
        Ok(bytes) => 256 * (bytes as u64),
        Err(RunError::Refused(refusal)) => refusal_number(refusal) as u64,
        Err(RunError::BadScript { line }) => 27 + 256 * (line as u64),
    }
}
