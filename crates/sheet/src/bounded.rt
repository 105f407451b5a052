// A list of at most N items, in memory that is reserved once.
ghost use Rattle.std.specs.Prelude.{◌≡◌, ◌<◌, ◌≤◌, not, nat_lt, [], ◌∷◌, ◌++◌, length, replicate, IfOk, vec_len, vec_capacity, slice_set};

use std::alloc::{AllocError, Global};

#[derive(Drop)]
pub struct BoundedVec<T, const N: usize> {
    list: Vec<T>,
    // Kept: memory is reserved beforehand, so room and limit have to be stated; here they are, once for all lists. The room is exactly N, so
    // that no call takes more.
    ghost room: { vec_capacity list ≡ N },
    ghost few: { vec_len list ≤ N },
}

impl<T, const N: usize> BoundedVec<T, N> {
    pub(crate) fn reserve(heap: Global) -> Result<BoundedVec<T, N>, AllocError>
        ensures { IfOk result (λ v. v.list.items ≡ []) }
    {
        Ok(BoundedVec {
            list: Vec::with_capacity(heap, N)?,
        })
    }

    pub(crate) fn len(&self) -> usize
        ensures count { result ≡ length self.now.list.items }
        ensures fits { result ≤ N }
    {
        self.list.len()
    }

    // Whether no other item has room.
    pub(crate) fn is_full(&self) -> bool
        ensures { result ≡ not (nat_lt (length self.now.list.items) N) }
    {
        self.list.len() == N
    }

    pub(crate) fn as_slice(&self) -> &[T]
        ensures items { result.now ≡ self.now.list.items }
        ensures fits { length result.now ≤ N }
    {
        self.list.as_slice()
    }

    // One item more.
    pub(crate) fn push(&mut self, item: T)
        requires { length self.old.list.items < N }
        ensures { self.new.list.items ≡ self.old.list.items ++ item ∷ [] }
    {
        self.list.push_reserved(item);
    }
}

impl<T: Drop, const N: usize> BoundedVec<T, N> {
    // No items, in the same memory.
    pub(crate) fn clear(&mut self)
        ensures { self.new.list.items ≡ [] }
    {
        self.list.clear();
    }
}

impl<T: Copy + Drop, const N: usize> BoundedVec<T, N> {
    // Another item in the place of one.
    pub(crate) fn set(&mut self, i: usize, item: T)
        requires { i < length self.old.list.items }
        ensures { self.new.list.items ≡ slice_set self.old.list.items i item }
    {
        self.list[i] = item;
    }

    // So many times the same item. What is there already is written over, which takes less time than to add each item anew.
    pub(crate) fn refill(&mut self, n: usize, item: T)
        requires { n ≤ N }
        ensures { self.new.list.items ≡ replicate n item }
    {
        self.list.truncate(n);
        overwrite(self.list.as_mut_slice(), item);
        // Kept: `resize` does not promise that it takes no memory.
        for _ in self.list.len()..n {
            self.list.push_reserved(item);
        }
    }
}

// Every item becomes the same.
fn overwrite<T: Copy>(items: &mut [T], item: T)
    ensures { items.new ≡ replicate (length items.old) item }
{
    // Kept: a slice's `fill` asks for a `clone` that cannot fail, and a `Copy` type promises none.
    for i in 0..items.len() {
        items[i] = item;
    }
}
