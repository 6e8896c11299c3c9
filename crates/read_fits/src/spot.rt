/// Where an answer stands: the number of its line, the numbers of events between which the line may have looked, both included, and that of the
/// failed store call that it prints, if it prints one.
#[derive(Clone, Copy, Debug)]
pub struct Spot {
    pub line: u64,
    pub from: u64,
    pub upto: u64,
    pub failed: Option<u64>,
}
