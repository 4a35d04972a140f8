use super::rows::{ConstraintRow, Step, TermRow};

// What the record of a row says, by its mark and its length.
#[derive(Clone, Copy, Debug, PartialEq, Eq)]
pub enum RowRecord {
    // LB, with its code
    Label(u32),
    // TM
    Term(TermRow),
    // CN
    Constraint(ConstraintRow),
}

// What the record of a step says, by its mark and its length.
#[derive(Clone, Copy, Debug, PartialEq, Eq)]
pub enum StepRecord<'a> {
    // ST
    Rule(Step),
    // MD, with its count and whatever bytes come after it
    Model(u8, &'a [u8]),
}
