// The lines of a script.
ghost use Rattle.std.specs.Prelude.{◌≡◌, ◌<◌, ◌==◌, ◌∷◌, length, IfSome, position};
ghost use Rattle.std.specs.Option.{option_copied};
ghost use Rattle.script_lines.specs.Script.{lines_of, lines_left, is_blank};

/// Whether a line has spaces, tabs and CR alone, or nothing at all.
pub fn is_blank(line: &[u8]) -> bool
    ensures { result ≡ is_blank line.now }
{
    line.iter()
        .all(|b| *b == b' ' || *b == b'\t' || *b == b'\r')
}

/// The first line of a script, and what stands behind its LF.
pub fn cut(script: &[u8]) -> (&[u8], Option<&[u8]>)
    ensures lines { lines_of script.now ≡ result.0.now ∷ lines_left (option_copied result.1) }
    ensures shorter { IfSome result.1 (λ rest. length rest.now < length script.now) }
{
    match lf_at(script) {
        Some(at) => {
            let (line, _) = script.split_at(at);
            let (_, rest) = script.split_at(at + 1);
            (line, Some(rest))
        }
        None => (script, None),
    }
}

fn lf_at(bytes: &[u8]) -> Option<usize>
    ensures { result ≡ position (λ b. b == 10) bytes.now }
{
    bytes.iter().position(|b| *b == b'\n')
}
