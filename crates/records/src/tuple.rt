// Tuples of one to four names in four fields, where places past the arity are zero: compared, turned round,
// joined, split, changed at a place.
ghost use Rattle.std.specs.Prelude.{◌≡◌, ◌≤◌};
ghost use Rattle.records.specs.Tuples.{names, reversed, joined, rest_from, name_at, name_put};
ghost use Rattle.records.specs.Tuples.{fresh_names, before_all, pair_of};

// A tuple of one to four names; places past its arity are zero.
#[derive(Clone, Copy, Debug, Default, PartialEq, Eq)]
pub struct Tuple {
    pub a: u8,
    pub b: u8,
    pub c: u8,
    pub d: u8,
}

impl Tuple {
    // The tuple with these four places.
    pub fn new(a: u8, b: u8, c: u8, d: u8) -> Tuple
        ensures { result ≡ names a b c d }
    {
        Tuple { a, b, c, d }
    }

    // A pair, or a single name before a zero.
    pub fn pair(a: u8, b: u8) -> Tuple
        ensures { result ≡ pair_of a b }
    {
        Tuple::new(a, b, 0, 0)
    }

    // As many fresh names as the arity says, from n on.
    pub fn fresh(arity: u8, n: u8) -> Tuple
        requires { n ≤ 64 }
        ensures { result ≡ fresh_names arity n }
    {
        match arity {
            1 => Tuple::new(n, 0, 0, 0),
            2 => Tuple::new(n, n + 1, 0, 0),
            3 => Tuple::new(n, n + 1, n + 2, 0),
            _ => Tuple::new(n, n + 1, n + 2, n + 3),
        }
    }

    // The name at a place.
    pub fn at(self, place: u8) -> u8
        ensures { result ≡ name_at place self }
    {
        match place {
            0 => self.a,
            1 => self.b,
            2 => self.c,
            _ => self.d,
        }
    }

    // The tuple with another name at a place.
    pub fn with(self, place: u8, name: u8) -> Tuple
        ensures { result ≡ name_put place self name }
    {
        match place {
            0 => Tuple { a: name, ..self },
            1 => Tuple { b: name, ..self },
            2 => Tuple { c: name, ..self },
            _ => Tuple { d: name, ..self },
        }
    }

    // A tuple of this arity the other way round.
    pub fn reversed(self, arity: u8) -> Tuple
        ensures { result ≡ reversed arity self }
    {
        let Tuple { a, b, c, d } = self;
        match arity {
            1 => self,
            2 => Tuple::new(b, a, 0, 0),
            3 => Tuple::new(c, b, a, 0),
            _ => Tuple::new(d, c, b, a),
        }
    }

    // The first so many names, and after them those of another tuple.
    pub fn joined(self, first: u8, other: Tuple) -> Tuple
        ensures { result ≡ joined first self other }
    {
        let Tuple { a, b, c, d: _ } = self;
        match first {
            0 => other,
            1 => Tuple::new(a, other.a, other.b, other.c),
            2 => Tuple::new(a, b, other.a, other.b),
            3 => Tuple::new(a, b, c, other.a),
            _ => self,
        }
    }

    // The names from a place on.
    pub fn rest_from(self, place: u8) -> Tuple
        ensures { result ≡ rest_from place self }
    {
        let Tuple { a: _, b, c, d } = self;
        match place {
            0 => self,
            1 => Tuple::new(b, c, d, 0),
            2 => Tuple::new(c, d, 0, 0),
            3 => Tuple::new(d, 0, 0, 0),
            _ => Tuple::default(),
        }
    }

    // A name, and after it those of the tuple.
    pub fn after(self, name: u8) -> Tuple
        ensures { result ≡ before_all name self }
    {
        Tuple::new(name, self.a, self.b, self.c)
    }
}
