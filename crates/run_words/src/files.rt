// The words behind the options.
ghost use Rattle.std.specs.Prelude.{◌≡◌, ◌≢◌, ◌<◌, ◌^◌, ◌==◌, ◌+◌, ◌∷◌, ◌↔◌, ℕ, List, IfOk, IfSome, IsTrue, None, Ok, Some, [], codes, length, not, slice_index, string_bytes};
ghost use Rattle.std.specs.List.{list_all};
ghost use Rattle.std.specs.Option.{option_to_list};
ghost use Rattle.run_words.specs.Options.{Text, texts_of};
ghost use Rattle.run_words.specs.Words.{AreFiles, HasFiles, IsInput};
ghost use Rattle.run_words.specs.declared.settings.Input.{Input};

use crate::error::WordsError;
use crate::settings::Input;

/// What the rest of the words, which begins at place `start`, asks for: nothing further where scripts are made, else their
/// files.
pub(crate) fn read_input(
    rest: &[String],
    start: usize,
    make: Option<u32>,
) -> Result<Input, WordsError>
    requires { start + length rest.now < 2 ^ 64 }
    ensures input { IfOk result (IsInput start (option_to_list make) (texts_of rest.now)) }
    ensures only { (input : Input) → IsInput start (option_to_list make) (texts_of rest.now) input → result ≡ Ok input }
{
    match make {
        Some(number) => made(rest, number),
        None => match files(rest, start) {
            Some(first) => Ok(Input::Files { first }),
            None => Err(WordsError::Refused),
        },
    }
}

fn made(rest: &[String], number: u32) -> Result<Input, WordsError>
    ensures input { IfOk result (λ input. (input ≡ Input.Made number) × (texts_of rest.now ≡ [])) }
    ensures only { texts_of rest.now ≡ [] → result ≡ Ok (Input.Made number) }
{
    match rest {
        [] => Ok(Input::Made { number }),
        [_, ..] => Err(WordsError::Refused),
    }
}

/// The place of the first file.
fn files(rest: &[String], start: usize) -> Option<usize>
    requires { start + length rest.now < 2 ^ 64 }
    ensures some { IfSome result (HasFiles start (texts_of rest.now)) }
    ensures only { (first : ℕ) → HasFiles start (texts_of rest.now) first → result ≡ Some first }
{
    match marked(rest) {
        Some(behind) => {
            if are_files(behind) {
                Some(start + 1)
            } else {
                None
            }
        }
        None => {
            if !are_files(rest) {
                return None;
            }
            if are_plain(rest) { Some(start) } else { None }
        }
    }
}

/// The words behind a first `--`.
fn marked(words: &[String]) -> Option<&[String]>
    ensures some { IfSome result (λ behind. (texts_of words.now ≡ codes "--" ∷ texts_of behind.now)
        × (length words.now ≡ length behind.now + 1)) }
    ensures none { result ≡ None → (behind : List Text) → texts_of words.now ≢ codes "--" ∷ behind }
{
    match words {
        [] => None,
        [mark, behind @ ..] => {
            if mark.as_str() == "--" {
                Some(behind)
            } else {
                None
            }
        }
    }
}

/// Whether there are 1 to 1,024 words and none is empty.
fn are_files(words: &[String]) -> bool
    ensures { IsTrue result ↔ AreFiles (texts_of words.now) }
{
    if words.len() < 1 {
        return false;
    }
    if 1024 < words.len() {
        return false;
    }
    are_named(words)
}

fn are_named(words: &[String]) -> bool
    ensures { result ≡ list_all (λ word. not (length (string_bytes word) == 0)) words.now }
{
    words.iter().all(|word| !word.as_str().is_empty())
}

/// Whether no word begins with `-`.
fn are_plain(words: &[String]) -> bool
    ensures { result ≡ list_all (λ word. not (slice_index (string_bytes word) 0 == 45)) words.now }
{
    words.iter().all(|word| !word.as_str().starts_with('-'))
}
