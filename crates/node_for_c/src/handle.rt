//! A box behind a pointer: what a struct that C holds owns.

ghost use Rattle.std.specs.Prelude.{◌≡◌, Option, Some, None, IsSome, is_some, option_map};
ghost use Rattle.std.specs.Coded.{coded_option};
ghost use Rattle.node_for_c.specs.Owned.{handle_owns};

use crate::parts::Parts;
use std::alloc::Global;
use std::marker::Model;
use std::ptr::null_mut;

/// A pointer that owns what `Box<T>` does, or nothing: `kept` is the value that it leads to. To drop it
/// forgets what it owns. A struct with a type parameter can't cross to C, so each `T` that C holds has a
/// struct of its own with the same fields, which converts to a handle and back.
#[derive(Drop)]
pub struct Handle<T> {
    pub ptr: *mut T,
    pub alloc: Global,
    pub ghost kept: { Option T } by { coded_option T.code },
}

impl<T> Model for Handle<T> {
    ghost also_owns = { λ h. handle_owns T.row h.alloc h.ptr h.kept };
}

// What a handle leads to may go to another thread.
unsafe impl<T: Send> Send for Handle<T> {}

impl<T> Handle<T> {
    /// Returns a handle that owns nothing.
    pub fn closed(alloc: Global) -> Handle<T>
        ensures { result.kept ≡ None }
    {
        Handle {
            ptr: null_mut(),
            alloc,
        }
    }

    fn of_parts(parts: Parts<T, Global>) -> Handle<T>
        ensures { result.kept ≡ Some parts.value }
    {
        let Parts { ptr, alloc } = parts;
        Handle { ptr, alloc }
    }

    fn into_parts(self) -> Parts<T, Global>
        requires { IsSome self.kept }
        ensures { self.kept ≡ Some result.value }
    {
        let Handle { ptr, alloc } = self;
        Parts { ptr, alloc }
    }
}

impl<T: Drop> Handle<T> {
    /// Returns the handle of a box.
    pub fn of(value: Box<T>) -> Handle<T>
        ensures { result.kept ≡ Some value.value }
    {
        Handle::of_parts(Parts::of(value))
    }

    /// Returns the box, if the handle is open: if it owns one.
    pub fn into_box(self, is_open: bool) -> Option<Box<T>>
        requires { is_open ≡ is_some self.kept }
        ensures { option_map (λ b. b.value) result ≡ self.kept }
    {
        if !is_open {
            return None;
        }
        Some(self.into_parts().into_box())
    }
}
