//! Values that are read to know them.
ghost use Rattle.std.specs.List.{AllByRecursion};
ghost use Rattle.std.specs.Prelude.{IfSome};

use tail_base::Items;

/// A value whose numbers are known to be of their types once they are read.
pub(crate) trait Known {
    /// What the types say of the value.
    ghost Typed: { Self → Type 0 };

    /// Reads the numbers.
    fn known(&self)
        ensures typed { Typed self.now };
}

/// Reads each of them.
pub(crate) fn known_each<T: Known>(items: &[T])
    ensures typed { AllByRecursion T.Typed items.now }
{
    for item in items {
        item.known();
    }
}

impl<T: Known> Known for Items<T> {
    ghost use Rattle.std.specs.List.{AllByRecursion};

    ghost Typed = { λ items. AllByRecursion T.Typed items };

    fn known(&self) {
        known_each(self.as_slice());
    }
}

impl<T: Known> Known for Option<T> {
    ghost use Rattle.std.specs.Prelude.{IfSome};

    ghost Typed = { λ item. IfSome item T.Typed };

    fn known(&self) {
        match self {
            Some(item) => item.known(),
            None => (),
        }
    }
}

impl Known for u8 {
    ghost use Rattle.response_values.specs.Values.{FitsWord};

    ghost Typed = { FitsWord };

    fn known(&self) {
        let _number = *self;
    }
}

impl Known for u32 {
    ghost use Rattle.response_values.specs.Values.{FitsWord};

    ghost Typed = { FitsWord };

    fn known(&self) {
        let _number = *self;
    }
}

impl Known for u64 {
    ghost use Rattle.response_values.specs.Values.{FitsWord};

    ghost Typed = { FitsWord };

    fn known(&self) {
        let _number = *self;
    }
}
