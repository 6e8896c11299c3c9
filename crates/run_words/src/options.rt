// The options at the front of the words.
ghost use Rattle.std.specs.Prelude.{◌≡◌, ◌≢◌, ◌≤◌, ◌<◌, ◌^◌, ◌↔◌, ◌+◌, ℕ, List, IfOk, IfSome, IsSome, IsTrue, OnErr, None, Ok, false, length, is_some};
ghost use Rattle.std.specs.Char.{is_ascii_digit};
ghost use Rattle.std.specs.List.{list_all};
ghost use Rattle.std.specs.Str.Parse.{digits_value};
ghost use Rattle.run_words.specs.Options.{Text, Takes, joined, least_of, most_of, name_of, texts_of};
ghost use Rattle.run_words.specs.Words.{IsSettings};
ghost use Rattle.run_words.specs.Reading.{AreRead, BeginsWithNone, IsAdded, IsChoice, IsChosen, IsFaulty, IsNoValueFirst, IsValueFirst, number_in};
ghost use Rattle.run_words.specs.declared.settings.Kind.{Kind};
ghost use Rattle.run_words.specs.declared.settings.Settings.{Settings};

use crate::error::WordsError;
use crate::settings::Kind;

/// What the options ask for, each with its number where it is given, and the place of the first word behind them.
#[derive(Clone, Copy)]
pub(crate) struct Options {
    pub(crate) workers: Option<u32>,
    pub(crate) cache: Option<u32>,
    pub(crate) make: Option<u32>,
    pub(crate) first: usize,
}

/// One option: its kind and number, and how many words it takes.
#[derive(Clone, Copy)]
struct Choice {
    kind: Kind,
    number: u32,
    words: usize,
}

/// The options at the front of the words.
pub(crate) fn read_options(words: &[String]) -> Result<Options, WordsError>
    ensures read { IfOk result (AreRead (texts_of words.now)) }
    ensures refused { OnErr result ((settings : Settings) → ¬ IsSettings (texts_of words.now) settings) }
{
    let mut options = Options {
        workers: None,
        cache: None,
        make: None,
        first: 0,
    };
    while let Some(choice) = next_option(&words[options.first..])? {
        options = with(options, choice)?;
    }
    Ok(options)
}

/// The options with one more, where there is none of its kind yet.
fn with(options: Options, choice: Choice) -> Result<Options, WordsError>
    requires { options.first + choice.words < 2 ^ 64 }
    ensures added { IfOk result (IsAdded options choice) }
    ensures refused { OnErr result (IsSome (number_in options choice.kind)) }
{
    if is_given(&options, choice.kind) {
        return Err(WordsError::Refused);
    }
    Ok(added(options, choice))
}

fn is_given(options: &Options, kind: Kind) -> bool
    ensures { result ≡ is_some (number_in options.now kind) }
{
    match kind {
        Kind::Workers => options.workers.is_some(),
        Kind::Cache => options.cache.is_some(),
        Kind::Make => options.make.is_some(),
    }
}

fn added(options: Options, choice: Choice) -> Options
    requires room { options.first + choice.words < 2 ^ 64 }
    requires free { is_some (number_in options choice.kind) ≡ false }
    ensures { IsAdded options choice result }
{
    let number = Some(choice.number);
    let first = options.first + choice.words;
    match choice.kind {
        Kind::Workers => Options {
            workers: number,
            first,
            ..options
        },
        Kind::Cache => Options {
            cache: number,
            first,
            ..options
        },
        Kind::Make => Options {
            make: number,
            first,
            ..options
        },
    }
}

/// The option that the words begin with, or none where they begin with no option's name.
fn next_option(words: &[String]) -> Result<Option<Choice>, WordsError>
    ensures choice { IfOk result (λ found. IfSome found (IsChoice (texts_of words.now))) }
    ensures ended { result ≡ Ok None → BeginsWithNone (texts_of words.now) }
    ensures refused { OnErr result (IsFaulty (texts_of words.now)) }
{
    let [word, rest @ ..] = words else {
        return Ok(None);
    };
    match joined(word.as_str()) {
        Some((kind, value)) => Ok(Some(chosen(kind, value, 1)?)),
        None => match kind_named(word.as_str()) {
            Some(kind) => Ok(Some(apart(kind, rest)?)),
            None => Ok(None),
        },
    }
}

/// The option whose name stands before the words.
fn apart(kind: Kind, words: &[String]) -> Result<Choice, WordsError>
    ensures choice { IfOk result (IsValueFirst kind (texts_of words.now)) }
    ensures refused { OnErr result (IsNoValueFirst kind (texts_of words.now)) }
{
    match words {
        [] => Err(WordsError::Refused),
        [value, ..] => chosen(kind, value.as_str(), 2),
    }
}

/// The option with this value, in so many words.
fn chosen(kind: Kind, value: &str, words: usize) -> Result<Choice, WordsError>
    ensures choice { IfOk result (IsChosen kind value.now words) }
    ensures refused { OnErr result (¬ Takes kind value.now) }
{
    match number_of(kind, value) {
        Some(number) => Ok(Choice {
            kind,
            number,
            words,
        }),
        None => Err(WordsError::Refused),
    }
}

/// The kind and the value of a word `NAME=VALUE`.
fn joined(word: &str) -> Option<(Kind, &str)>
    ensures some { IfSome result (λ found. word.now ≡ joined found.0 found.1.now) }
    ensures none { result ≡ None → (kind : Kind) (value : Text) → word.now ≢ joined kind value }
{
    match word.split_once('=') {
        Some((name, value)) => match kind_named(name) {
            Some(kind) => Some((kind, value)),
            None => None,
        },
        None => None,
    }
}

fn kind_named(name: &str) -> Option<Kind>
    ensures some { IfSome result (λ kind. name.now ≡ name_of kind) }
    ensures none { result ≡ None → (kind : Kind) → name.now ≢ name_of kind }
{
    match name {
        "--workers" => Some(Kind::Workers),
        "--cache" => Some(Kind::Cache),
        "--make" => Some(Kind::Make),
        _ => None,
    }
}

/// The number that a value spells, where the kind takes it.
fn number_of(kind: Kind, value: &str) -> Option<u32>
    ensures some { IfSome result (λ number. Takes kind value.now × (number ≡ digits_value 10 value.now)) }
    ensures none { result ≡ None → ¬ Takes kind value.now }
{
    if !are_digits(value) {
        return None;
    }
    match value.parse::<u32>() {
        Ok(number) => taken(kind, number),
        Err(_) => None,
    }
}

fn are_digits(value: &str) -> bool
    ensures { result ≡ list_all is_ascii_digit value.now }
{
    value.as_bytes().iter().all(|b| b.is_ascii_digit())
}

fn taken(kind: Kind, number: u32) -> Option<u32>
    ensures some { IfSome result (λ n. (n ≡ number) × (least_of kind ≤ number) × (number ≤ most_of kind)) }
    ensures none { result ≡ None → ¬ ((least_of kind ≤ number) × (number ≤ most_of kind)) }
{
    let (least, most) = match kind {
        Kind::Workers => (1, 64),
        Kind::Cache => (0, 134_217_728),
        Kind::Make => (0, u32::MAX),
    };
    if least <= number && number <= most {
        Some(number)
    } else {
        None
    }
}
