// Which numbers of events a line may print.
ghost use Rattle.std.specs.Prelude.{◌≡◌, ◌↔◌, ℕ, Option, IsTrue, is_some};
ghost use Rattle.history.specs.Acts.{Asked};
ghost use Rattle.history.specs.Commit.{Transaction};
ghost use Rattle.history.specs.History.{History};
ghost use Rattle.history.specs.Own.{numbers_of};
ghost use Rattle.serde_json.specs.Data.{Data};
ghost use Rattle.stated_acts.specs.Acts.{IsActBy};
ghost use Rattle.stated_acts.specs.Printing.{OpensAll, is_empty, ends_none, may_by};
ghost use Rattle.stated_arrays.specs.AnswerNumbers.{PrintsNumbers};
ghost use Rattle.stated_arrays.specs.Claimed.{stated_asked};
ghost use Rattle.stated_arrays.specs.ToldNumbers.{numbers_in};

use crate::acts::Act;
use cells::List;
use stated_arrays::EventNumbers;

/// Whether the numbers that are printed of a line that did this, where a transaction stands or not, are those of the
/// events that it states, one after another. The numbers of an open line's new arrays are known to be.
pub fn may_print(act: &Act, stands: bool, numbers: &EventNumbers) -> bool
    ensures { (history : History) (owner line : ℕ) (t : Option Transaction) (asked : Asked) (answer : Data)
        → IsActBy t asked act.now → stands ≡ is_some t → PrintsNumbers answer numbers.now
        → OpensAll history owner act.now answer
        → (IsTrue result ↔ (numbers_of (stated_asked history owner line asked answer) ≡ numbers_in answer)) }
{
    may_by(act, stands, numbers)
}

// The same, by the act.
fn may_by(act: &Act, stands: bool, numbers: &EventNumbers) -> bool
    ensures { result ≡ may_by act.now stands numbers.now }
{
    match act {
        Act::Opens { .. } => is_none(&numbers.done),
        Act::Reads { .. } => is_none(&numbers.opened) && is_none(&numbers.done),
        Act::Writes { .. } => is_none(&numbers.opened) && (!stands || ends_none(numbers)),
        Act::Commits => is_none(&numbers.opened),
        Act::Refused { .. } | Act::Binds { .. } | Act::Begins { .. } | Act::Aborts => {
            is_none(&numbers.opened) && ends_none(numbers)
        }
    }
}

// Whether no commit and no failed call is printed.
fn ends_none(numbers: &EventNumbers) -> bool
    ensures { result ≡ ends_none numbers.now }
{
    is_none(&numbers.done) && numbers.failed.is_none()
}

fn is_none(numbers: &List<u64>) -> bool
    ensures { result ≡ is_empty numbers.now }
{
    numbers.items().is_empty()
}
