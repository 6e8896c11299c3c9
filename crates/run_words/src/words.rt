ghost use Rattle.std.specs.Prelude.{◌≡◌, IfOk, IsErrOf, Ok};
ghost use Rattle.run_words.specs.Options.{texts_of};
ghost use Rattle.run_words.specs.Words.{IsSettings, KeepsLimits};
ghost use Rattle.run_words.specs.declared.settings.Settings.{Settings};

use crate::error::WordsError;
use crate::files::read_input;
use crate::options::read_options;
use crate::settings::Settings;

/// What the words of a command line, without the program's name, ask for.
///
/// Options come first, then files. The options are `--workers N` (1 to 64, else 1), `--cache CELLS` (at most 2^27, else 2^20) and
/// `--make NUMBER` (below 2^32), each at most once, also spelled `--workers=N` and so on; a number is decimal digits alone. With
/// `--make` no word follows. Without it there are 1 to 1,024 files, none of them the empty word; behind one word `--` they may
/// begin with `-`.
///
/// # Errors
/// `Refused` where the words are anything else.
pub fn read_words(words: &[String]) -> Result<Settings, WordsError>
    ensures settings { IfOk result (IsSettings (texts_of words.now)) }
    ensures only { (settings : Settings) → IsSettings (texts_of words.now) settings → result ≡ Ok settings }
    ensures refused { IsErrOf result WordsError.Refused → (settings : Settings)
        → ¬ IsSettings (texts_of words.now) settings }
    ensures limits { IfOk result (KeepsLimits (texts_of words.now)) }
{
    let options = read_options(words)?;
    let input = read_input(&words[options.first..], options.first, options.make)?;
    Ok(Settings {
        workers: options.workers.unwrap_or(1),
        cache: u64::from(options.cache.unwrap_or(1_048_576)),
        input,
    })
}
