// Vectors of a fixed capacity, which lie in the value itself and are copied with it. (The toolchain's `ArrayVec`
// is no `Copy`: its model leaves out what stands after the items.)
ghost use Rattle.std.specs.Prelude.{◌≡◌, ◌≤◌, length};

use std::alloc::AllocError;

// A vector of at most `CAP` items: the first `len` of its cells.
pub struct FixedVec<T, const CAP: usize> {
    cells: [T; CAP],
    len: usize,
    ghost fits: { len ≤ CAP },
    ghost full: { length cells ≡ CAP },
}

impl<T: Copy, const CAP: usize> Clone for FixedVec<T, CAP> {
    ghost use Rattle.std.specs.Prelude.{⊤};

    ghost is_clone = { λ v w. w ≡ v };

    ghost is_infallible = { λ _. ⊤ };

    fn clone(&self) -> Result<Self, AllocError> {
        Ok(*self)
    }
}

impl<T: Copy, const CAP: usize> Copy for FixedVec<T, CAP> {}

impl<T: Copy + Default, const CAP: usize> FixedVec<T, CAP> {
    ghost use Rattle.std.specs.Prelude.{◌+◌, ◌-◌, ◌<◌, [], ◌∷◌, ◌++◌, take, MatchOption};
    ghost use Rattle.compile.specs.Vectors.{items};

    // An empty vector.
    pub fn new() -> Self
        ensures { items result ≡ [] }
    {
        FixedVec {
            cells: [T::default(); CAP],
            len: 0,
        }
    }

    // How many items there are.
    pub fn len(&self) -> usize
        ensures value { result ≡ length (items self.now) }
        ensures fits { result ≤ CAP }
    {
        self.as_slice().len()
    }

    // The items.
    pub fn as_slice(&self) -> &[T]
        ensures value { result.now ≡ items self.now }
        ensures fits { length result.now ≤ CAP }
    {
        &self.cells[..self.len]
    }

    // Appends an item. There must be room.
    pub(crate) fn push(&mut self, item: T)
        requires { length (items self.old) < CAP }
        ensures { items self.new ≡ items self.old ++ item ∷ [] }
    {
        self.cells[self.len] = item;
        self.len += 1;
    }

    // Appends an item; none, with the vector as it was, where there is no room.
    pub fn try_push(&mut self, item: T) -> Option<()>
        ensures { MatchOption result ((length (items self.old) ≡ CAP) × (self.new ≡ self.old)) (λ _. items self.new ≡ items self.old ++ item ∷ []) }
    {
        if self.len >= CAP {
            return None;
        }
        self.push(item);
        Some(())
    }

    // Appends all these items; none, with the vector as it was, where there is no room for all of them.
    pub(crate) fn try_extend_from_slice(&mut self, more: &[T]) -> Option<()>
        ensures { MatchOption result ((CAP < length (items self.old) + length more.now) × (self.new ≡ self.old)) (λ _. items self.new ≡ items self.old ++ more.now) }
    {
        if more.len() > CAP - self.len {
            return None;
        }
        for item in more {
            self.push(*item);
        }
        Some(())
    }

    // Takes the last item away; an empty vector stays empty.
    pub(crate) fn shorten(&mut self)
        ensures { items self.new ≡ take (length (items self.old) - 1) (items self.old) }
    {
        self.len = self.len.saturating_sub(1);
    }

    // Takes all items away.
    pub(crate) fn clear(&mut self)
        ensures { items self.new ≡ [] }
    {
        self.len = 0;
    }
}
