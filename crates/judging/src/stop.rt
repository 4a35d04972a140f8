// What ends a program before its work is done.
ghost use Rattle.std.specs.Prelude.{◌≡◌, true, false, Err, OnOk};
ghost use Rattle.judging.specs.Stops.{has_failed};
ghost use Rattle.judging.specs.declared.stop.Stop.TheVariants.{Refused, Failed};

use super::line::RefusedLine;
use records::refusal::Refusal;
use std::alloc::AllocError;
use std::io;

// A refusal, which is an answer and is printed, or a failure.
#[derive(Drop)]
pub enum Stop {
    Refused(Refusal),
    Failed(anyhow::Error),
}

impl From<Refusal> for Stop {
    ghost from_gives = { λ refusal stop. stop ≡ Refused refusal };

    fn from(refusal: Refusal) -> Stop {
        Stop::Refused(refusal)
    }
}

impl From<anyhow::Error> for Stop {
    ghost from_gives = { λ failure stop. stop ≡ Failed failure };

    fn from(failure: anyhow::Error) -> Stop {
        Stop::Failed(failure)
    }
}

impl From<io::Error> for Stop {
    ghost from_gives = { λ _ stop. has_failed (Err stop) ≡ true };

    fn from(failure: io::Error) -> Stop {
        Stop::Failed(failure.into())
    }
}

impl From<AllocError> for Stop {
    ghost from_gives = { λ _ stop. has_failed (Err stop) ≡ true };

    fn from(failure: AllocError) -> Stop {
        Stop::Failed(failure.into())
    }
}

// Prints the refusal that a program ended with; a failure stays one.
pub fn print_refusal(rt: &HostRuntime, ended: Result<(), Stop>) -> anyhow::Result<()>
    ensures { OnOk result (has_failed ended ≡ false) }
{
    match ended {
        Ok(()) => Ok(()),
        Err(Stop::Refused(refusal)) => {
            println!(rt; "{}", RefusedLine::from(refusal))?;
            Ok(())
        }
        Err(Stop::Failed(failure)) => Err(failure),
    }
}
