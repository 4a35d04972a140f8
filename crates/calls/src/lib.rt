//! Holds what ties the plain records to the calculus: the theorems stand in specs/, their proofs in proofs/. And names
//! by their representatives, as models and listings read them.
#![tactic(auto)]

ghost use Rattle.std.specs.Prelude.{◌≡◌};
ghost use Rattle.records.specs.Tuples.{names};
ghost use Rattle.meaning.specs.Model.{rep};
ghost use Rattle.calls.specs.Bridge.{Bridged};
ghost use Rattle.calls.specs.Granted.{Granted};
ghost use Rattle.calls.specs.Fitting.{RoomTold};
ghost use Rattle.calls.specs.ModelLaws.{ModelsGrantedExactly};
ghost use Rattle.calls.specs.Standing.{CallsStand};
ghost use Rattle.calls.specs.Vectors.{Examples};

use records::tuple::Tuple;

// A step's tests on plain records pass exactly where a rule of the calculus applies, with the same
// alternatives; a step has one list of them; each leaves a branch whose facts fit.
pub fn rules_are_tested() -> u8
    ensures { Bridged }
{
    0
}

// A term row or a constraint passes its tests exactly where it fits, also while rows still come in.
pub fn rows_are_tested() -> u8
    ensures { Granted }
{
    0
}

// The room tests of a step speak of all its alternatives.
pub fn room_is_tested() -> u8
    ensures { RoomTold }
{
    0
}

// A model is granted exactly where its representatives are lawful, the terms have few enough tuples, and
// every constraint holds by representatives.
pub fn models_are_tested() -> u8
    ensures { ModelsGrantedExactly }
{
    0
}

// The law of verdicts; the functions that the contracts of the calls cite run exactly as its relation of
// calls, call by call and over whole runs; and it speaks of every trial that they reach. Rows are granted
// exactly where the subject grants them, and so are steps, under whatever meaning the kind has at that call.
pub fn calls_stand() -> u8
    ensures { CallsStand }
{
    0
}

// Worked examples, computed by the functions from the bytes of their records.
pub fn examples_hold() -> u8
    ensures { Examples }
{
    0
}

// The representative of a name; 0 for one that has none.
pub fn representative(representatives: &[u8], name: u8) -> u8
    ensures { result ≡ rep representatives.now name }
{
    representatives.get(usize::from(name)).copied().unwrap_or(0)
}

// The tuple of the representatives of names.
pub fn represented(representatives: &[u8], tuple: Tuple) -> Tuple
    ensures { result ≡ names (rep representatives.now tuple.a) (rep representatives.now tuple.b)
        (rep representatives.now tuple.c) (rep representatives.now tuple.d) }
{
    let Tuple { a, b, c, d } = tuple;
    Tuple::new(
        representative(representatives, a),
        representative(representatives, b),
        representative(representatives, c),
        representative(representatives, d),
    )
}
