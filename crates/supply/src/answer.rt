// What a supply answers to a draw.
// Stays: a bool would not say at a draw which of its values is the yes.
#[derive(Clone, Copy, PartialEq, Eq, Debug)]
pub enum Answer {
    Yes,
    No,
}
