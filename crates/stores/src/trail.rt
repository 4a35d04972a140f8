// Entries kept at the front of a lent slice: added at the end, cut back to an earlier length, looked up.
ghost use Rattle.std.specs.Prelude.{◌≡◌, ℕ, ◌+◌, ◌<◌, ◌≤◌, [], ◌∷◌, ◌++◌, length, take, if◌then◌else◌, MatchResult, nat_lt, slice_set};
ghost use Rattle.std.specs.List.{slice_get};
ghost use Rattle.stores.specs.Kept.{kept};

// The first `count` slots are kept; what the others hold does not matter. (Slots and a count, here and in the functions
// below, since there is no heap: the slots are lent anew to every call, and the counts are the trial's.)
#[derive(Drop)]
pub struct Trail<'a, T> {
    pub slots: &'a mut [T],
    pub count: usize,
}

impl<T: Copy> Trail<'_, T> {
    // One entry more, at the end; a full slice hands it back.
    pub fn push(&mut self, x: T) -> Result<(), T>
        ensures slots { MatchResult result
            (λ _. (self.new.count ≡ self.old.count + 1)
            × (self.new.slots.now
            ≡ slice_set self.old.slots.now self.old.count x))
            (λ e. (length self.old.slots.now ≤ self.old.count)
            × (e ≡ x) × (self.new ≡ self.old)) }
        ensures kept { MatchResult result
            (λ _. kept self.new ≡ kept self.old ++ x ∷ [])
            (λ e. kept self.new ≡ kept self.old) }
        ensures same { self.new.slots.ghost_name ≡ self.old.slots.ghost_name }
    {
        if self.count >= self.slots.len() {
            return Err(x);
        }
        self.slots[self.count] = x;
        self.count += 1;
        Ok(())
    }

    // Cut back to its first n entries; a shorter trail stays as it is.
    pub fn cut(&mut self, n: usize)
        ensures count { self.new.count
            ≡ (if nat_lt n self.old.count then n else self.old.count) }
        ensures slots { self.new.slots.now ≡ self.old.slots.now }
        ensures kept { kept self.new ≡ take n (kept self.old) }
        ensures same { self.new.slots.ghost_name ≡ self.old.slots.ghost_name }
    {
        self.count = self.count.min(n);
    }

    // The entry at place i, if there is one.
    pub fn get(&self, i: usize) -> Option<T>
        ensures { result ≡ slice_get (kept self.now) i }
    {
        entry(self.slots, self.count, i)
    }
}

// The first `count` slots, or all where there are fewer.
pub fn front<T>(slots: &[T], count: usize) -> &[T]
    ensures { result.now ≡ take count slots.now }
{
    &slots[..count.min(slots.len())]
}

// The entry at place i of the first `count` slots, if there is one.
pub fn entry<T: Copy>(slots: &[T], count: usize, i: usize) -> Option<T>
    ensures { result ≡ slice_get (take count slots.now) i }
{
    front(slots, count).get(i).copied()
}

// Writes one entry more after the first `count`.
pub fn push_at<T: Copy>(slots: &mut [T], count: usize, x: T)
    requires { count < length slots.old }
    ensures { slots.new ≡ slice_set slots.old count x }
{
    let mut trail = Trail { slots, count };
    let _ = trail.push(x);
}
