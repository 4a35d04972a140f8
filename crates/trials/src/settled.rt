mod lists;

use crate::progress::Progress;

// A trial that has its verdict: the same numbers, and no step to come. It is moved, never copied and never
// let go. (A type of its own beside `Trial`, since only a settled trial has a listing.)
pub struct Settled {
    pub(crate) progress: Progress,
}
