use records::refusal::Refusal;

// A refusal, and the number of the record that it came at. It is made in the arm of a `match` or an `if let`: where a
// sheet or a trial is at hand, that has to be given up first; in `run`, tried with `map_err` and `?`, the proof did not
// close.
#[derive(Clone, Copy)]
pub(crate) struct Stop {
    pub(crate) refusal: Refusal,
    pub(crate) record: u32,
}
