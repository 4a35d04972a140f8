ghost use Rattle.std.specs.Prelude.{◌≡◌};
ghost use Rattle.records.specs.Kinds.{rule_in};

use super::refusal::Refusal;

// The rules of the calculus, in the order of their numbers, 1 to 25.
#[derive(Clone, Copy, Debug, PartialEq, Eq)]
pub enum Rule {
    InterUp,
    InterDown,
    UnionUp,
    UnionDown,
    DiffUp,
    DiffDown,
    SingleUp,
    SingleDown,
    EmptyUnsat,
    SetDiseq,
    EqUnsat,
    TranspUp,
    TranspDown,
    JoinUp,
    JoinDown,
    ProdUp,
    ProdDown,
    ClosUpOne,
    ClosUpTwo,
    ClosDown,
    Sym,
    SwapName,
    SwapTerm,
    LabelUnsat,
    LabelSame,
}

impl TryFrom<u8> for Rule {
    type Error = Refusal;

    ghost try_from_gives = { λ number r. r ≡ rule_in number };

    fn try_from(number: u8) -> Result<Self, Refusal> {
        match number {
            1 => Ok(Rule::InterUp),
            2 => Ok(Rule::InterDown),
            3 => Ok(Rule::UnionUp),
            4 => Ok(Rule::UnionDown),
            5 => Ok(Rule::DiffUp),
            6 => Ok(Rule::DiffDown),
            7 => Ok(Rule::SingleUp),
            8 => Ok(Rule::SingleDown),
            9 => Ok(Rule::EmptyUnsat),
            10 => Ok(Rule::SetDiseq),
            11 => Ok(Rule::EqUnsat),
            12 => Ok(Rule::TranspUp),
            13 => Ok(Rule::TranspDown),
            14 => Ok(Rule::JoinUp),
            15 => Ok(Rule::JoinDown),
            16 => Ok(Rule::ProdUp),
            17 => Ok(Rule::ProdDown),
            18 => Ok(Rule::ClosUpOne),
            19 => Ok(Rule::ClosUpTwo),
            20 => Ok(Rule::ClosDown),
            21 => Ok(Rule::Sym),
            22 => Ok(Rule::SwapName),
            23 => Ok(Rule::SwapTerm),
            24 => Ok(Rule::LabelUnsat),
            25 => Ok(Rule::LabelSame),
            _ => Err(Refusal::NoRule(number)),
        }
    }
}
