// The words of a check.
ghost use Rattle.std.specs.Prelude.{◌<◌, ◌↔◌, IsTrue, length, string_bytes};
ghost use Rattle.std.specs.List.{All};
ghost use Rattle.transcript_check.specs.CheckWords.{AreCheckWords, IsFileWord};
ghost use Rattle.script_streams.specs.Reading.{names_in};

/// Whether the words name a transcript and scripts.
pub(crate) fn are_check_words(words: &[String]) -> bool
    ensures { IsTrue result ↔ AreCheckWords (names_in words.now) }
{
    words.len() > 1 && are_few_files(words)
}

// The same of two words at least.
fn are_few_files(words: &[String]) -> bool
    requires { 1 < length words.now }
    ensures { IsTrue result ↔ AreCheckWords (names_in words.now) }
{
    words.len() <= 1025 && are_files(words)
}

// Whether each word is a file.
fn are_files(words: &[String]) -> bool
    ensures { IsTrue result ↔ All (λ word. IsFileWord (string_bytes word)) words.now }
{
    words.iter().all(|word| is_file(word.as_str()))
}

// Whether a word is a file: it isn't empty, and doesn't begin with `-`.
fn is_file(word: &str) -> bool
    ensures { IsTrue result ↔ IsFileWord word.now }
{
    match word.as_bytes() {
        [first, ..] => *first != b'-',
        [] => false,
    }
}
