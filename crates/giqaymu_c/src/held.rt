//! A box as its pointer, or nothing.
ghost use Rattle.std.specs.Prelude.{◌≡◌, ◌⊎◌, ◌<◌, Some, None, Option, IsSome, option_map};
ghost use Rattle.giqaymu_c.specs.Owned.{held_owns};

use crate::parts::BoxParts;
use std::alloc::Global;
use std::marker::Model;

/// A box as its pointer, where the flag isn't 0; else nothing.
pub struct MaybeBox<T> {
    pub(crate) at: *mut T,
    pub(crate) is_open: u64,
    pub ghost value: { Option T },
}

impl<T> Model for MaybeBox<T> {
    ghost also_owns = { λ h. held_owns T.row h.is_open h.at h.value };
}

impl<T> MaybeBox<T> {
    /// Nothing.
    pub(crate) fn none() -> MaybeBox<T>
        ensures { result.value ≡ None }
    {
        MaybeBox {
            at: std::ptr::null_mut(),
            is_open: 0,
        }
    }

    fn of_parts(parts: BoxParts<T, Global>) -> MaybeBox<T>
        ensures { result.value ≡ Some parts.value }
    {
        let BoxParts { ptr, alloc: _ } = parts;
        MaybeBox {
            at: ptr,
            is_open: 1,
        }
    }

    // With a copy of the flag.
    fn flag(self) -> (MaybeBox<T>, u64)
        ensures { (result.0.value ≡ self.value)
            × (((result.1 ≡ 0) × (self.value ≡ None)) ⊎ ((0 < result.1) × IsSome self.value)) }
    {
        let MaybeBox { at, is_open } = self;
        (MaybeBox { at, is_open }, is_open)
    }

    fn into_parts(self, alloc: Global) -> BoxParts<T, Global>
        requires { IsSome self.value }
        ensures { self.value ≡ Some result.value }
    {
        let MaybeBox { at, is_open: _ } = self;
        BoxParts { ptr: at, alloc }
    }
}

impl<T: Drop> MaybeBox<T> {
    /// The box of this.
    pub(crate) fn of(value: Box<T, Global>) -> MaybeBox<T>
        ensures { result.value ≡ Some value.value }
    {
        MaybeBox::of_parts(BoxParts::of(value))
    }

    /// The box that it is, where it is one.
    pub(crate) fn into_box(self, alloc: Global) -> Option<Box<T, Global>>
        ensures { option_map (λ b. b.value) result ≡ self.value }
    {
        let (held, flag) = self.flag();
        if flag == 0 {
            held.forget();
            return None;
        }
        Some(held.into_parts(alloc).into_box())
    }

    // Lets go of nothing.
    fn forget(self)
        requires { self.value ≡ None }
    {
        let MaybeBox { at: _, is_open: _ } = self;
    }
}
