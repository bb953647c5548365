//! Lists of what has no `==` of its own.
ghost use Rattle.std.specs.Prelude.{◌≡◌, Bool};
ghost use Rattle.std.specs.Cmp.Lexicographic.{pointwise};
ghost use Rattle.std.specs.Str.{bytes_eq};

use tail_base::Text;

/// What is compared with another of its kind.
pub(crate) trait Comparable {
    ghost same: { Self → Self → Bool };

    /// Whether they are the same.
    fn is_same(&self, other: &Self) -> bool
        ensures value { result ≡ same self.now other.now };
}

/// Whether the lists are the same, element by element.
pub(crate) fn same_list<T: Comparable>(a: &[T], b: &[T]) -> bool
    ensures value { result ≡ pointwise T.same a.now b.now }
{
    let mut others = b;
    for x in a {
        let [y, rest @ ..] = others else {
            return false;
        };
        if !x.is_same(y) {
            return false;
        }
        others = rest;
    }
    others.is_empty()
}

impl Comparable for Text {
    ghost same = { bytes_eq };

    fn is_same(&self, other: &Text) -> bool {
        self.as_slice() == other.as_slice()
    }
}
