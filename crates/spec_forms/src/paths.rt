// Paths of stored arrays.
ghost use Rattle.std.specs.Prelude.{◌≡◌, option_map, length};
ghost use Rattle.std.specs.List.{list_all};
ghost use Rattle.spec_forms.specs.Paths.{is_segment_byte, is_segment, segments_of, is_path, without_slash, path_of};

/// The path that a text is, without the `/` that may stand at its end.
pub(crate) fn path_of(text: &str) -> Option<&str>
    ensures { option_map (λ s. s.now) result ≡ path_of text.now }
{
    let path = without_slash(text);
    if is_path(path) { Some(path) } else { None }
}

fn without_slash(text: &str) -> &str
    ensures { result.now ≡ without_slash text.now }
{
    match text.strip_suffix('/') {
        Some(front) => front,
        None => text,
    }
}

fn is_path(text: &str) -> bool
    ensures { result ≡ is_path text.now }
{
    segment_count(text) <= 16 && are_segments(text)
}

fn segment_count(text: &str) -> usize
    ensures { result ≡ length (segments_of text.now) }
{
    text.split('/').count()
}

fn are_segments(text: &str) -> bool
    ensures { result ≡ list_all is_segment (segments_of text.now) }
{
    text.split('/').all(|segment| is_segment(segment))
}

fn is_segment(text: &str) -> bool
    ensures { result ≡ is_segment text.now }
{
    if text.len() < 1 {
        return false;
    }
    if 255 < text.len() {
        return false;
    }
    if text == "." {
        return false;
    }
    if text == ".." {
        return false;
    }
    if text.as_bytes().ends_with(b"~new") {
        return false;
    }
    are_segment_bytes(text.as_bytes())
}

fn are_segment_bytes(text: &[u8]) -> bool
    ensures { result ≡ list_all is_segment_byte text.now }
{
    text.iter().all(|b| *b != b'/' && *b != 0)
}
