//! What sheets mean, and that the calculus, its models and their listings tell the truth about them.
#![tactic(auto)]

ghost use Rattle.meaning.specs.Reading.{ReadsBack, ReadsOnly};
ghost use Rattle.meaning.specs.Law.{LawOfVerdicts};

// Lines are read back from their text, and from no other bytes.
pub fn lines_read_back() -> u8
    ensures back { ReadsBack }
    ensures only { ReadsOnly }
{
    0
}

// The law of verdicts: after a granted make, whatever calls are made on whatever bytes, CLOSED says that no
// interpretation satisfies the sheet; OPEN says that every interpretation that the bytes of the listing tell
// is one of the sheet and satisfies it; and kinds that agree on which labels are the same don't bring both.
pub fn verdicts_stand() -> u8
    ensures { LawOfVerdicts }
{
    0
}
