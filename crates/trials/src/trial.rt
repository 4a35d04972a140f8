mod acts;
mod begins;
mod opens;
mod outcomes;
mod plans;
mod seals;
mod settles;
mod steps;
mod takes;
mod weighs;

use crate::progress::Progress;

// A trial of a sheet. It is moved, never copied and never let go.
pub struct Trial {
    progress: Progress,
}
