/// One part of a pattern for texts.
#[derive(Clone, Copy, Debug, PartialEq, Eq)]
pub enum Piece {
    /// A byte that matches itself.
    Letter(u8),
    /// Any number of bytes, including none.
    Run,
    /// One character of one to four bytes.
    OneCharacter,
}
