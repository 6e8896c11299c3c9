ghost use Rattle.std.specs.Prelude.{◌≡◌, ◌<◌, length, slice_set};
ghost use Rattle.std.specs.Cmp.Lexicographic.{pointwise, lists_equiv, lists_per};

use std::marker::Model;

/// A list of values as a field of a public type. A contract sees the list.
#[derive(Debug, Drop)]
pub struct List<T> {
    values: Vec<T>,
}

impl<T> Model for List<T> {
    ghost use Rattle.std.specs.Prelude.{List};
    ghost use Rattle.std.specs.Coded.{coded_list};

    ghost Value = { List T };

    ghost coded = { coded_list T.code };

    ghost view = { λ list. list.values.items };
}

impl<T> List<T> {
    /// The list of the values of a `Vec`.
    pub fn wrap(values: Vec<T>) -> Self
        ensures { result ≡ values.items }
    {
        List { values }
    }

    /// The values, in order.
    pub fn items(&self) -> &[T]
        ensures { result.now ≡ self.now }
    {
        &self.values
    }

    /// The values as a `Vec`.
    pub fn into_inner(self) -> Vec<T>
        ensures { result.items ≡ self }
    {
        self.values
    }
}

impl<T: Drop> List<T> {
    /// Puts a value in the place of the one that stands there.
    pub fn set(&mut self, place: usize, value: T)
        requires { place < length self.old }
        ensures { self.new ≡ slice_set self.old place value }
    {
        self.values[place] = value;
    }
}

impl<T: PartialEq> PartialEq for List<T> {
    ghost eq = { λ one other. pointwise T.eq one other };

    ghost laws = { lists_per T.laws };

    fn eq(&self, other: &Self) -> bool {
        self.values.as_slice() == other.values.as_slice()
    }
}

impl<T: Eq> Eq for List<T> {
    ghost laws = { lists_equiv T.Eq.laws };
}
