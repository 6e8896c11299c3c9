use cells::Name;
use chunk_forms::Want;

/// An array that is asked of a store: where it lies, what is asked of it, whether it may be opened where it is found and made where it
/// isn't.
#[derive(Debug, Drop)]
pub struct Asked {
    pub mount: Name,
    pub path: Name,
    pub want: Want,
    pub may_open: bool,
    pub may_create: bool,
}
