// A refusal, as the calls share it.
ghost use Rattle.std.specs.Prelude.{◌≡◌, ◌<◌, IfOk};
ghost use Rattle.catalogue.specs.Answers.{refusal_number};
ghost use Rattle.catalogue.specs.Lent.{refused};
ghost use Rattle.calls.specs.Promised.{or_refused};

use catalogue::answers::{Outcome, Refusal, Stepped};
use catalogue::workers::Table;
use workers::table::put;

// A refusal returns the table unchanged. A call returns it where it sees the reason: a result that held a record would be
// cleared and copied on its way, at each step.
pub fn refuse(table: Table, refusal: Refusal) -> Outcome
    ensures { result ≡ refused table refusal }
{
    Outcome {
        table,
        answer: Err(refusal),
    }
}

// The outcome of a call from one result: what was made is put into the table, and a refusal returns the table unchanged.
// It is for other callers; those here return a refusal where they see it.
pub fn or_refused(table: Table, worker: u32, made: Result<Stepped, Refusal>) -> Outcome
    requires { IfOk made (λ s. worker < 8) }
    ensures { result ≡ or_refused table worker made }
{
    match made {
        Ok(s) => Outcome {
            table: put(table, worker as usize, s.worker),
            answer: s.answer,
        },
        Err(refusal) => refuse(table, refusal),
    }
}

// The number of a refusal in document 01. 27 carries a line, and is no refusal of these calls.
pub fn refusal_number(refusal: Refusal) -> u8
    ensures { result ≡ refusal_number refusal }
{
    refusal as u8
}

#[cfg(test)]
mod tests {
    use super::*;
    use catalogue::answers::Answer;
    use catalogue::workers::Place;
    use workers::records::bare;
    use workers::requests::busy_at;
    use workers::table::idle_table;

    // What was made goes to its own worker and no other, and a refusal leaves both as they are.
    #[test]
    fn only_what_was_made_is_put(rt: HostRuntime) {
        let place = Place::AddV { k: 7, p: 0, c: 1 };
        let made = or_refused(
            idle_table(2),
            1,
            Ok(Stepped {
                worker: bare(place),
                answer: Ok(Answer::Going { met: 3 }),
            }),
        );
        assert!(rt; !busy_at(made.table.workers[0].place));
        assert!(rt; busy_at(made.table.workers[1].place));
        assert!(rt; matches!(made.answer, Ok(Answer::Going { met: 3 })));
        let kept = or_refused(made.table, 1, Err(Refusal::Busy));
        assert!(rt; !busy_at(kept.table.workers[0].place));
        assert!(rt; busy_at(kept.table.workers[1].place));
        assert!(rt; matches!(kept.answer, Err(Refusal::Busy)));
    }
}
