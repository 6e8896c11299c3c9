// Looks at the logs of all sessions.
ghost use Rattle.std.specs.Prelude.{◌≡◌, ◌<◌, List as ListOf, get_or, length};
ghost use Rattle.std.specs.List.{AllByRecursion};
ghost use Rattle.output_laws.specs.Typed.{AreTyped, IsTypedAnswer};
ghost use Rattle.transcript_laws.specs.declared.Answer.{Answer as Printed};

use crate::bodies::look_at_answer;
use cells::List;
use transcript_laws::Answer;

/// Looks at each answer of all logs: what its type says of one then holds of all. Nothing is done.
pub fn look_at_logs(logs: &[List<Answer>])
    ensures { AreTyped logs.now }
{
    for i in 0..logs.len() {
        look_at_log(log_at(logs, i).items());
    }
}

fn log_at(logs: &[List<Answer>], i: usize) -> &List<Answer>
    requires { i < length logs.now }
    ensures { (d : ListOf Printed) → result.now ≡ get_or logs.now i d }
{
    &logs[i]
}

fn look_at_log(log: &[Answer])
    ensures { AllByRecursion IsTypedAnswer log.now }
{
    for i in 0..log.len() {
        look_at_answer(answer_at(log, i));
    }
}

fn answer_at(log: &[Answer], i: usize) -> &Answer
    requires { i < length log.now }
    ensures { (d : Printed) → result.now ≡ get_or log.now i d }
{
    &log[i]
}
