// One call, and runs of calls.
ghost use Rattle.std.specs.Prelude.{◌≡◌, MatchResult};
ghost use Rattle.protocol.specs.Step.{Step};
ghost use Rattle.service.specs.Meaning.{meaning};
ghost use Rattle.runs.specs.Runs.{call_of, answer_of, Ran};

use super::calls::{Answer, Call};
use naming::Naming;
use service::Service;
use std::alloc::{AllocError, Global};
use store::Store;

// Makes one call.
pub fn make<S: Store, N: Naming>(service: &mut Service<S, N>, call: &Call) -> Answer
    ensures { Step N.Naming.rule (meaning S.Store.view service.old) (call_of call.now) (answer_of result) (meaning S.Store.view service.new) }
{
    match call {
        Call::File {
            writer,
            sequence,
            items,
            codes,
        } => Answer::from(service.file(*writer, *sequence, items.as_slice(), codes.as_slice())),
        Call::Prepare { writer, place } => Answer::from(
            service.prepare(*writer, *place).map(u32::from),
        ),
        Call::Commit { writer, place } => Answer::from(
            service.commit(*writer, *place).map(u32::from),
        ),
        Call::Close { writer } => Answer::from(service.close(*writer)),
        Call::Withdraw { writer } => Answer::from(service.withdraw(*writer)),
        Call::Open { reader, items } => Answer::from(
            service.open(*reader, items.as_slice()).map(u32::from),
        ),
        Call::First { reader, place } => Answer::from(service.first_ask(*reader, *place)),
        Call::Second { reader, place } => Answer::from(service.second_ask(*reader, *place)),
        Call::Take { reader, place } => Answer::from(service.take(*reader, *place)),
        Call::Release { reader } => Answer::from(service.release(*reader).map(u32::from)),
    }
}

// Makes the calls one after another; answers the answers, or that there is no memory for them, and then no call was made.
pub fn run<S: Store, N: Naming>(
    heap: Global,
    service: &mut Service<S, N>,
    calls: &[Call],
) -> Result<Vec<Answer>, AllocError>
    ensures { MatchResult result (λ v. Ran N.Naming.rule (meaning S.Store.view service.old) calls.now v.items (meaning S.Store.view service.new)) (λ _. meaning S.Store.view service.new ≡ meaning S.Store.view service.old) }
{
    let mut answers = Vec::with_capacity(heap, calls.len())?;
    for call in calls {
        let answer = make(service, call);
        answers.push_reserved(answer);
    }
    Ok(answers)
}
