use thiserror::Error;

/// Why words are no settings.
#[derive(Clone, Copy, Debug, PartialEq, Eq, Error)]
pub enum WordsError {
    /// The words ask for nothing that there is.
    #[error("words refused")]
    Refused,
}
