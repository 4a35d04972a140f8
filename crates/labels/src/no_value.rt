// The fault of a question about values: a code that has none.
#[derive(Clone, Copy, Debug, PartialEq, Eq)]
pub struct NoValue(pub u32);
