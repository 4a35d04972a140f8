// The operations of terms and the forms of facts, and the numbers that stand for them in records.
ghost use Rattle.std.specs.Prelude.{◌≡◌};
ghost use Rattle.records.specs.Kinds.{operation_in, form_in};

// The operations of terms, in the order of their numbers, 0 to 9.
#[derive(Clone, Copy, Debug, PartialEq, Eq)]
pub enum Operation {
    Variable,
    Empty,
    Single,
    Union,
    Intersection,
    Difference,
    Transpose,
    Product,
    Join,
    Closure,
}

// The forms of facts, in the order of their numbers, 1 to 3: a tuple in a term, two names, two terms.
#[derive(Clone, Copy, Debug, PartialEq, Eq)]
pub enum Form {
    Member = 1,
    EqualNames = 2,
    EqualTerms = 3,
}

// A number that stands for nothing of the kind.
#[derive(Clone, Copy, Debug, PartialEq, Eq)]
pub struct Unnamed(pub u8);

impl TryFrom<u8> for Operation {
    type Error = Unnamed;

    ghost try_from_gives = { λ number r. r ≡ operation_in number };

    fn try_from(number: u8) -> Result<Self, Unnamed> {
        match number {
            0 => Ok(Operation::Variable),
            1 => Ok(Operation::Empty),
            2 => Ok(Operation::Single),
            3 => Ok(Operation::Union),
            4 => Ok(Operation::Intersection),
            5 => Ok(Operation::Difference),
            6 => Ok(Operation::Transpose),
            7 => Ok(Operation::Product),
            8 => Ok(Operation::Join),
            9 => Ok(Operation::Closure),
            _ => Err(Unnamed(number)),
        }
    }
}

impl TryFrom<u8> for Form {
    type Error = Unnamed;

    ghost try_from_gives = { λ number r. r ≡ form_in number };

    fn try_from(number: u8) -> Result<Self, Unnamed> {
        match number {
            1 => Ok(Form::Member),
            2 => Ok(Form::EqualNames),
            3 => Ok(Form::EqualTerms),
            _ => Err(Unnamed(number)),
        }
    }
}
