// Values at the front of lent slots, what puts tuples into them, and the operations.
ghost use Rattle.std.specs.Prelude.{◌≡◌, ◌<◌, ◌≤◌, [], Option, drop, length, position};
ghost use Rattle.std.specs.List.{flat_map};
ghost use Rattle.values.specs.Sets.{has, put, puts, In};
ghost use Rattle.records.specs.Tuples.{equal_names};
ghost use Rattle.values.specs.Tuples.{reversed, turning, following, joining, linked};
ghost use Rattle.values.specs.Gathers.{listed, Filled, Makes, MakesPairs, Either, Both, Without, Made, Paired, Reach};

use records::tuple::Tuple;

// A value: its tuples stand at the front of the slots, in the order in which they came. What the other slots hold
// does not matter. Slots and a length, since there is no heap: the slots are lent.
#[derive(Drop)]
pub struct Value<'a> {
    pub slots: &'a mut [Tuple],
    pub len: usize,
    pub ghost within: { len ≤ length slots.now },
}

// Where a tuple stands in a value, counted from 0: it was there already, or it was added behind the others.
#[derive(Clone, Copy, Debug, PartialEq, Eq)]
pub enum Placed {
    There(usize),
    Added(usize),
}

// A tuple of arity p the other way round; one of another arity than 1 to 4 stays as it is.
fn turned(x: Tuple, p: u8) -> Tuple
    ensures { result ≡ reversed p x }
{
    match p {
        2..=4 => x.reversed(p),
        _ => x,
    }
}

// The tuple x, of arity p, joined to y, if y begins with its last name: both then lose that name.
fn link(x: Tuple, p: u8, y: Tuple) -> Option<Tuple>
    ensures { result ≡ joining p x y }
{
    let last = p.saturating_sub(1);
    if x.at(last) == y.a {
        Some(x.joined(last, y.rest_from(1)))
    } else {
        None
    }
}

// Whether t is one of the tuples. (A loop: with the library's `contains` or `any`, models that look many tuples up took
// longer.)
pub fn contains(tuples: &[Tuple], t: Tuple) -> bool
    ensures { result ≡ has equal_names tuples.now t }
{
    for x in tuples {
        if *x == t {
            return true;
        }
    }
    false
}

impl<'a> Value<'a> {
    ghost use Rattle.values.specs.Held.{held, SameSlots, Pushed, Inserted, Gathered, StandsIn};

    // The empty value.
    pub fn new(slots: &'a mut [Tuple]) -> Value<'a>
        ensures held { held result ≡ [] }
        ensures slots { result.slots.now ≡ slots.old }
        ensures same { result.slots.ghost_name ≡ slots.entry.ghost_name }
    {
        Value { slots, len: 0 }
    }

    // Its tuples.
    pub fn tuples(&self) -> &[Tuple]
        ensures { result.now ≡ held self.now }
    {
        &self.slots[..self.len]
    }

    // How many they are.
    pub fn len(&self) -> usize
        ensures { result ≡ length (held self.now) }
    {
        self.tuples().len()
    }

    // Its tuples, and the slots behind them.
    pub fn split(self) -> (&'a [Tuple], &'a mut [Tuple])
        ensures held { result.0.now ≡ held self.entry }
        ensures rest { result.1.now ≡ drop self.entry.len self.entry.slots.now }
    {
        let Value { slots, len } = self;
        let (tuples, rest) = slots.split_at_mut(len);
        (tuples, rest)
    }

    // The first place where t stands.
    fn place_of(&self, t: Tuple) -> Option<usize>
        ensures { result ≡ position (λ x. equal_names x t) (held self.now) }
    {
        self.tuples().iter().position(|x| *x == t)
    }

    // Puts t behind the others, and answers its place; nothing where there is no room.
    fn push(&mut self, t: Tuple) -> Option<usize>
        ensures pushed { Pushed self.old.slots.now self.old.len t
            self.new.slots.now self.new.len result }
        ensures same { SameSlots self.old self.new }
    {
        let place = self.len;
        if place == self.slots.len() {
            return None;
        }
        self.slots[place] = t;
        self.len += 1;
        Some(place)
    }

    // Puts t in: it is compared with those there in order, and if it is none of them it stands behind them.
    // Nothing where there is no room.
    pub fn insert(&mut self, t: Tuple) -> Option<Placed>
        ensures inserted { Inserted self.old.slots.now self.old.len t
            self.new.slots.now self.new.len result }
        ensures same { SameSlots self.old self.new }
    {
        match self.place_of(t) {
            Some(place) => Some(Placed::There(place)),
            None => Some(Placed::Added(self.push(t)?)),
        }
    }

    // Puts t in; nothing where there is no room.
    fn add(&mut self, t: Tuple) -> Option<()>
        ensures filled { Filled (length self.old.slots.now)
            (put equal_names (held self.old) t) (held self.new) result }
        ensures same { SameSlots self.old self.new }
    {
        self.insert(t)?;
        Some(())
    }

    // Puts a tuple in, if there is one; nothing where there is no room.
    pub fn offer(&mut self, o: Option<Tuple>) -> Option<()>
        ensures filled { Filled (length self.old.slots.now)
            (puts equal_names (held self.old) (listed o)) (held self.new) result }
        ensures same { SameSlots self.old self.new }
    {
        match o {
            Some(t) => self.add(t),
            None => Some(()),
        }
    }

    // Puts in what each element of a list makes, in their order; nothing where there is no room.
    fn insert_made<T: Copy, F: Fn(T) -> Option<Tuple>>(&mut self, list: &[T], make: F) -> Option<()>
        requires { F.IsAlwaysCallable make }
        ensures filled { (m : T → Option Tuple) →
            Makes (F.post make) list.now m →
            Filled (length self.old.slots.now)
            (puts equal_names (held self.old) (flat_map (λ x. listed (m x)) list.now))
            (held self.new) result }
        ensures same { SameSlots self.old self.new }
    {
        for &x in list {
            self.offer(make(x))?;
        }
        Some(())
    }

    // Puts in all tuples of a list.
    fn insert_all(&mut self, list: &[Tuple]) -> Option<()>
        ensures filled { Filled (length self.old.slots.now)
            (puts equal_names (held self.old) list.now) (held self.new) result }
        ensures same { SameSlots self.old self.new }
    {
        self.insert_made(list, |x| Some(x))
    }

    // The tuples of s and those of r.
    pub fn union(slots: &'a mut [Tuple], s: &[Tuple], r: &[Tuple]) -> Option<Value<'a>>
        ensures gathered { Gathered (Either (In s.now) (In r.now)) (length slots.old) result }
        ensures same { StandsIn slots.entry result }
    {
        let mut value = Value::new(slots);
        value.insert_all(s)?;
        value.insert_all(r)?;
        Some(value)
    }

    // What the elements of a list make.
    pub fn made<T: Copy, F: Fn(T) -> Option<Tuple>>(
        slots: &'a mut [Tuple],
        list: &[T],
        make: F,
    ) -> Option<Value<'a>>
        requires { F.IsAlwaysCallable make }
        ensures gathered { (m : T → Option Tuple) →
            Makes (F.post make) list.now m →
            Gathered (Made m (In list.now)) (length slots.old) result }
        ensures same { StandsIn slots.entry result }
    {
        let mut value = Value::new(slots);
        value.insert_made(list, make)?;
        Some(value)
    }

    // The tuples of s that are in r.
    pub fn intersection(slots: &'a mut [Tuple], s: &[Tuple], r: &[Tuple]) -> Option<Value<'a>>
        ensures gathered { Gathered (Both (In s.now) (In r.now)) (length slots.old) result }
        ensures same { StandsIn slots.entry result }
    {
        Value::made(slots, s, |x| contains(r, x).then_some(x))
    }

    // The tuples of s that are not in r.
    pub fn difference(slots: &'a mut [Tuple], s: &[Tuple], r: &[Tuple]) -> Option<Value<'a>>
        ensures gathered { Gathered (Without (In s.now) (In r.now)) (length slots.old) result }
        ensures same { StandsIn slots.entry result }
    {
        Value::made(slots, s, |x| (!contains(r, x)).then_some(x))
    }

    // The tuples of s, which have arity p, the other way round.
    pub fn transpose(slots: &'a mut [Tuple], s: &[Tuple], p: u8) -> Option<Value<'a>>
        ensures gathered { Gathered (Made (turning p) (In s.now)) (length slots.old) result }
        ensures same { StandsIn slots.entry result }
    {
        Value::made(slots, s, |x| Some(turned(x, p)))
    }

    // What pairs of a tuple of s and one of r make.
    fn pairs<F: Fn(Tuple, Tuple) -> Option<Tuple>>(
        slots: &'a mut [Tuple],
        s: &[Tuple],
        r: &[Tuple],
        make: F,
    ) -> Option<Value<'a>>
        requires { F.IsAlwaysCallable make }
        ensures gathered { (m : Tuple → Tuple → Option Tuple) →
            MakesPairs (F.post make) s.now r.now m →
            Gathered (Paired m (In s.now) (In r.now)) (length slots.old) result }
        ensures same { StandsIn slots.entry result }
    {
        let mut value = Value::new(slots);
        for &x in s {
            value.insert_made(r, |y| make(x, y))?;
        }
        Some(value)
    }

    // Each tuple of s, of arity p, with each of r behind it.
    pub fn product(slots: &'a mut [Tuple], s: &[Tuple], p: u8, r: &[Tuple]) -> Option<Value<'a>>
        ensures gathered { Gathered (Paired (following p) (In s.now) (In r.now)) (length slots.old) result }
        ensures same { StandsIn slots.entry result }
    {
        Value::pairs(slots, s, r, |x, y| Some(x.joined(p, y)))
    }

    // Each tuple of s, of arity p, joined to each of r that begins with its last name.
    pub fn join(slots: &'a mut [Tuple], s: &[Tuple], p: u8, r: &[Tuple]) -> Option<Value<'a>>
        ensures gathered { Gathered (Paired (joining p) (In s.now) (In r.now)) (length slots.old) result }
        ensures same { StandsIn slots.entry result }
    {
        Value::pairs(slots, s, r, |x, y| link(x, p, y))
    }

    // The pairs that are linked by a chain of pairs of s: each pair that comes in is joined to all of s, once.
    pub fn closure(slots: &'a mut [Tuple], s: &[Tuple]) -> Option<Value<'a>>
        ensures gathered { Gathered (Reach linked (In s.now)) (length slots.old) result }
        ensures same { StandsIn slots.entry result }
    {
        let mut value = Value::new(slots);
        value.insert_all(s)?;
        // An index, since the value grows while its tuples are gone over.
        let mut i = 0;
        while i < value.len() {
            let x = value.tuples()[i];
            value.insert_made(s, |y| link(x, 2, y))?;
            i += 1;
        }
        Some(value)
    }
}
