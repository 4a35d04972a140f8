// Where a trial stands. (Three states with a name each, of which contracts speak and which one match takes up in place;
// an Option would leave the first without one.)
#[derive(Clone, Copy, Debug, PartialEq, Eq)]
pub enum Verdict {
    // Steps may still come.
    Undecided,
    // Every branch is closed.
    Closed,
    // A model satisfies the sheet.
    Open,
}
