/// Whether a name is added to those that are kept.
#[derive(Clone, Copy, PartialEq, Eq, Debug)]
pub enum Added {
    /// It is kept now.
    New,
    /// It was there before, and what was kept for it stays.
    Standing,
}
