ghost use Rattle.std.specs.Prelude.{◌≡◌, Bool, IfOk, int_lt};
ghost use Rattle.rt_dict.specs.Order.{
  IsStrictOrder,
  bool_below,
  text_below,
  int_order,
  bool_order,
  text_order,
};

use rt_lists::Text;
use std::alloc::{AllocError, Global};

/// A value that a dictionary can hold, with its order.
pub trait Key: Drop {
    /// Whether the first key comes before the second.
    ghost below: { Self → Self → Bool };

    /// Whether this key comes before the other.
    fn below(&self, other: &Self) -> bool
        ensures { result ≡ below self.now other.now };

    /// An equal key of its own. Fails only where memory is refused.
    fn copy(&self, alloc: Global) -> Result<Self, AllocError>
        ensures { IfOk result (λ copy. copy ≡ self.now) };

    /// No key is below itself, the order is transitive, and two keys of which neither is below the
    /// other are equal.
    ghost order: { IsStrictOrder below };
}

/// By value.
impl Key for i32 {
    ghost below = { int_lt };

    ghost order = { int_order };

    fn below(&self, other: &Self) -> bool {
        self < other
    }

    fn copy(&self, _alloc: Global) -> Result<Self, AllocError> {
        Ok(*self)
    }
}

/// By value.
impl Key for i64 {
    ghost below = { int_lt };

    ghost order = { int_order };

    fn below(&self, other: &Self) -> bool {
        self < other
    }

    fn copy(&self, _alloc: Global) -> Result<Self, AllocError> {
        Ok(*self)
    }
}

/// False comes before true.
impl Key for bool {
    ghost below = { bool_below };

    ghost order = { bool_order };

    fn below(&self, other: &Self) -> bool {
        !*self && *other
    }

    fn copy(&self, _alloc: Global) -> Result<Self, AllocError> {
        Ok(*self)
    }
}

/// By the bytes of the texts.
impl Key for Text {
    ghost below = { text_below };

    ghost order = { text_order };

    fn below(&self, other: &Self) -> bool {
        self.as_bytes() < other.as_bytes()
    }

    fn copy(&self, alloc: Global) -> Result<Self, AllocError> {
        Text::copied_from(alloc, self.as_str())
    }
}
