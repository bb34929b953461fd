ghost use Rattle.std.specs.Prelude.{◌≡◌, length, [], ◌∷◌, ◌++◌, OnOk, OnErr};

use std::alloc::AllocError;
use std::marker::Model;
use std::ops::DerefSlice;

/// A `Vec` that contracts see as the list of its elements. Records that hold it are plain data to a
/// contract, and it is made of a `Vec`, and gives it back, without memory.
#[derive(Clone, Debug, Drop)]
pub struct Items<T> {
    inner: Vec<T>,
}

impl<T> Model for Items<T> {
    ghost use Rattle.std.specs.Prelude.{List};
    ghost use Rattle.std.specs.Coded.{coded_list};

    ghost Value = { List T };

    ghost coded = { coded_list T.code };

    ghost view = { λ it. it.inner.items };
}

impl<T> Items<T> {
    pub fn from_vec(inner: Vec<T>) -> Items<T>
        ensures { result ≡ inner.items }
    {
        Items { inner }
    }

    pub fn into_vec(self) -> Vec<T>
        ensures { result.items ≡ self }
    {
        let Items { inner } = self;
        inner
    }

    pub fn as_slice(&self) -> &[T]
        ensures { result.now ≡ self.now }
    {
        self.inner.as_slice()
    }

    pub fn len(&self) -> usize
        ensures { result ≡ length self.now }
    {
        self.inner.len()
    }
}

impl<T: Drop> Items<T> {
    pub fn push(&mut self, item: T) -> Result<(), AllocError>
        ensures ok { OnOk result (self.new ≡ self.old ++ item ∷ []) }
        ensures err { OnErr result (self.new ≡ self.old) }
    {
        self.inner.push(item)?;
        Ok(())
    }
}

impl<T> DerefSlice for Items<T> {
    type Elem = T;

    ghost deref_gives = { λ it xs. xs ≡ it };

    fn deref(&self) -> &[T]
        ensures { result.now ≡ self.now }
    {
        self.inner.as_slice()
    }
}
