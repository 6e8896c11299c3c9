ghost use Rattle.transcript_cut.specs.LineEnds.{IsLineEnd};

/// Where the first line of a text ends: the spot of its first LF, or the text's length where there is none.
pub fn line_end(text: &[u8]) -> usize
    ensures { IsLineEnd text.now result }
{
    for (spot, byte) in text.iter().enumerate() {
        if *byte == b'\n' {
            return spot;
        }
    }
    text.len()
}
