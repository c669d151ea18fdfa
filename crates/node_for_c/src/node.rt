//! A registry as C holds it: a flag and one pointer, which owns the registry that it leads to.

ghost use Rattle.std.specs.Prelude.{◌≡◌, Option, Some, None, is_some, option_map};
ghost use Rattle.node_for_c.specs.declared.registry.Registry.{Registry};
ghost use Rattle.node_for_c.specs.contracts.registry.Registry.{the_row as registry};
ghost use Rattle.node_for_c.specs.Owned.{handle_owns, maybe_coded};

use crate::handle::Handle;
use crate::registry::Registry;
use std::alloc::Global;
use std::marker::Model;
use std::mem::replace;

/// What C sees at the pointer of a handle: nothing.
#[repr(C)]
#[derive(Drop)]
pub struct Opaque {
    byte: u8,
}

/// A `Handle<Registry>` as C sees it.
#[repr(C)]
#[derive(Drop)]
pub struct NodeHandle {
    ptr: *mut Opaque,
    alloc: Global,
    pub ghost kept: { Option Registry } by { maybe_coded registry },
}

impl Model for NodeHandle {
    ghost also_owns = { λ h. handle_owns registry h.alloc h.ptr h.kept };
}

// The registry may go to another thread.
unsafe impl Send for NodeHandle {}

impl NodeHandle {
    fn of(handle: Handle<Registry>) -> NodeHandle
        ensures { result.kept ≡ handle.kept }
    {
        let Handle { ptr, alloc } = handle;
        NodeHandle {
            ptr: ptr as *mut Opaque,
            alloc,
        }
    }

    fn into_handle(self) -> Handle<Registry>
        ensures { result.kept ≡ self.kept }
    {
        let NodeHandle { ptr, alloc } = self;
        Handle {
            ptr: ptr as *mut Registry,
            alloc,
        }
    }
}

/// A node that C holds. One whose bytes are all zero is closed. `handle.kept` is the registry that
/// an open one leads to.
#[repr(C)]
#[derive(Drop)]
pub struct Node {
    pub is_open: bool,
    /// Leads to its registry, where it is open.
    pub handle: NodeHandle,
    pub ghost agrees: { is_open ≡ is_some handle.kept },
}

impl Node {
    /// Takes the registry out, if the node is open, and leaves the node closed.
    pub fn take(&mut self, alloc: Global) -> Option<Box<Registry>>
        ensures value { option_map (λ b. b.value) result ≡ self.old.handle.kept }
        ensures closed { self.new.handle.kept ≡ None }
    {
        let closed = Node {
            is_open: false,
            handle: NodeHandle::of(Handle::closed(alloc)),
        };
        let Node { is_open, handle } = replace(self, closed);
        handle.into_handle().into_box(is_open)
    }

    /// Closes the node, if it is open: what it held is given back.
    pub fn close(&mut self, alloc: Global)
        ensures { self.new.handle.kept ≡ None }
    {
        drop(self.take(alloc));
    }

    /// The open node of a registry.
    pub fn of(registry: Box<Registry>) -> Node
        ensures { result.handle.kept ≡ Some registry.value }
    {
        Node {
            is_open: true,
            handle: NodeHandle::of(Handle::of(registry)),
        }
    }
}
