// The rules by which an image is read.

// Today's, or those for which stored images were written.
#[derive(Clone, Copy, PartialEq, Eq)]
pub enum Rules {
    Today,
    Stored,
}
