// How single members are judged.
ghost use Rattle.std.specs.Prelude.{◌≡◌, ◌↔◌, ℤ, IsTrue, IfOk};
ghost use Rattle.cells.specs.Numbers.{Holds, IsWord};
ghost use Rattle.meta_forms.specs.Judged.{judged_format, judged_word, judged_len, holds};

use crate::error::Fault;
use cells::Dtype;

/// A format's number, which has to be this one.
///
/// # Errors
/// `Unsupported` for another whole number, `Bad` without one.
pub fn judged_format(number: Option<i128>, version: u32) -> Result<(), Fault>
    ensures { result ≡ judged_format version number }
{
    match number {
        None => Err(Fault::Bad),
        Some(number) => if number == i128::from(version) {
            Ok(())
        } else {
            Err(Fault::Unsupported)
        },
    }
}

/// The word of a number.
///
/// # Errors
/// `Bad` where there is none, or it is out of the dtype's range.
pub fn judged_word(dtype: Dtype, number: Option<i128>) -> Result<u64, Fault>
    ensures value { result ≡ judged_word dtype number }
    ensures word { IfOk result (λ word. IsWord dtype word) }
{
    match number {
        None => Err(Fault::Bad),
        Some(number) => if holds(dtype, number) {
            Ok(dtype.word(number))
        } else {
            Err(Fault::Bad)
        },
    }
}

fn holds(dtype: Dtype, number: i128) -> bool
    ensures value { result ≡ holds dtype number }
    ensures meaning { IsTrue result ↔ Holds dtype number }
{
    dtype.least() <= number && number <= dtype.greatest()
}

/// A list of so many items that has to be empty.
///
/// # Errors
/// `Unsupported` for another list, `Bad` where there is none.
pub fn judged_len(len: Option<usize>) -> Result<(), Fault>
    ensures { result ≡ judged_len len }
{
    match len {
        Some(0) => Ok(()),
        Some(_) => Err(Fault::Unsupported),
        None => Err(Fault::Bad),
    }
}
