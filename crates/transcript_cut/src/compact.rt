// White space between the tokens of JSON.
ghost use Rattle.std.specs.Prelude.{◌≡◌};
ghost use Rattle.transcript_laws.specs.AnswerLines.{outside, is_white, is_compact};
ghost use Rattle.transcript_cut.specs.Readings.{reading_after};

/// What a byte of JSON is read in: outside of texts, in a text, or behind a backslash in one.
#[derive(Clone, Copy, Debug)]
pub enum Reading {
    Outside,
    Inside,
    Escaped,
}

/// Whether no white space stands outside of texts.
pub fn is_compact(bytes: &[u8]) -> bool
    ensures { result ≡ is_compact outside bytes.now }
{
    let mut reading = Reading::Outside;
    for byte in bytes {
        match reading_after(reading, *byte) {
            Some(next) => reading = next,
            None => return false,
        }
    }
    true
}

// What the next byte is read in; `None` behind white space outside of texts.
fn reading_after(reading: Reading, byte: u8) -> Option<Reading>
    ensures { result ≡ reading_after reading byte }
{
    match reading {
        Reading::Outside => {
            if is_white(byte) {
                None
            } else if byte == b'"' {
                Some(Reading::Inside)
            } else {
                Some(Reading::Outside)
            }
        }
        Reading::Inside => {
            if byte == b'\\' {
                Some(Reading::Escaped)
            } else if byte == b'"' {
                Some(Reading::Outside)
            } else {
                Some(Reading::Inside)
            }
        }
        Reading::Escaped => Some(Reading::Inside),
    }
}

fn is_white(byte: u8) -> bool
    ensures { result ≡ is_white byte }
{
    byte == b' ' || byte == b'\t' || byte == b'\n' || byte == b'\r'
}
