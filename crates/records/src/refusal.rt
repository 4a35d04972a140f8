// Why a call is turned down. Each case has a number and a detail (`Refusals` in specs/); docs/REFUSALS.md
// says where each is checked and in which order.
#[derive(Clone, Copy, Debug, PartialEq, Eq)]
pub enum Refusal {
    // 1: a lent store is too short.
    StoresShort,
    // 2: the first record is not a header.
    NotHeader,
    // 3: the header's letter is not the kind's.
    WrongLetter(u8),
    // 4: the header asks for more than a sheet holds.
    OverLimit,
    // 5: the record is not the row that is due.
    NotDue,
    // 6: the kind gives the code no value.
    UnknownLabel(u32),
    // 7: the term with this number is ill-formed.
    IllTerm(u8),
    // 8: the constraint with this number is ill-formed.
    IllConstraint(u8),
    // 9: so many rows are still due.
    RowsDue(u8),
    // 10: the trial has its verdict.
    VerdictReached,
    // 11: the record is neither a rule step nor a model.
    NotStep,
    // 12: a million records are granted.
    RecordsSpent,
    // 13: no rule has this number.
    NoRule(u8),
    // 14: no fact of the branch has this number.
    NotOnBranch(u16),
    // 15: the rule's line is not met.
    NotMet,
    // 16: an alternative, or one more fork, would not fit.
    NoRoom(Room),
    // 17: the representative of this name, or the count (255), is not lawful.
    Unlawful(u8),
    // 18: the terms' values have too many tuples.
    TuplesOver,
    // 19: this constraint is the first that is false.
    ConstraintFalse(u8),
    // 20: the trial has no verdict.
    NoVerdict,
    // 21: the buffer is shorter than this.
    BufferShort(usize),
    // 22: the layer holds all the pairs that it can.
    PairsFull,
    // 23: this old code has a pair already.
    OldHeld(u32),
    // 24: the input is too long.
    InputLong,
    // 25: the file of renames is not whole pairs, or has too many.
    RenamesIll,
}

// What there is no room for.
#[derive(Clone, Copy, Debug, PartialEq, Eq)]
pub enum Room {
    Names = 1,
    Facts = 2,
    Forks = 3,
}
