//! The children of each call, kept beside the records, so that a child is found in one step.

ghost use Rattle.std.specs.Prelude.{ℕ, ◌≡◌, ◌≢◌, ◌+◌, ◌<◌, ◌++◌, ◌∷◌, [], OnOk, length, slice_get, vec_capacity};
ghost use Rattle.call_table.specs.Children.{children_at, room_at, ChildrenFit};

use std::alloc::{AllocError, Global};

/// For each call the numbers of its children's calls, in their order.
#[derive(Drop)]
pub(crate) struct Children {
    alloc: Global,
    lists: Vec<Vec<u32>>,
}

impl Children {
    pub(crate) fn new(alloc: Global) -> Children
        ensures { ChildrenFit [] result }
    {
        Children {
            alloc,
            lists: Vec::new(alloc),
        }
    }

    /// The call that is this child of its parent.
    pub(crate) fn find(&self, parent: u32, child: u32) -> Option<u32>
        ensures { result ≡ slice_get (children_at self.now parent) child }
    {
        match self.lists.get(parent as usize) {
            Some(children) => children.get(child as usize).copied(),
            None => None,
        }
    }

    /// Makes room for one more call.
    pub(crate) fn reserve(&mut self) -> Result<(), AllocError>
        ensures same { self.new.lists.items ≡ self.old.lists.items }
        ensures ok { OnOk result (length self.new.lists.items < vec_capacity self.new.lists) }
    {
        self.lists.reserve(1)
    }

    /// Makes room for one more child of a call.
    pub(crate) fn reserve_child(&mut self, parent: u32) -> Result<(), AllocError>
        requires there { parent < length self.old.lists.items }
        ensures same { (call : ℕ) → children_at self.new call ≡ children_at self.old call }
        ensures many { length self.new.lists.items ≡ length self.old.lists.items }
        ensures room { vec_capacity self.new.lists ≡ vec_capacity self.old.lists }
        ensures ok { OnOk result (length (children_at self.new parent) < room_at self.new parent) }
    {
        self.lists[parent as usize].reserve(1)
    }

    /// A call comes, which has no child.
    pub(crate) fn add_call(&mut self)
        requires room { length self.old.lists.items < vec_capacity self.old.lists }
        ensures same { (call : ℕ) → children_at self.new call ≡ children_at self.old call }
        ensures many { length self.new.lists.items ≡ length self.old.lists.items + 1 }
    {
        self.lists.push_reserved(Vec::new(self.alloc));
    }

    /// A call becomes the last child of its parent.
    pub(crate) fn add_child(&mut self, parent: u32, call: u32)
        requires there { parent < length self.old.lists.items }
        requires room { length (children_at self.old parent) < room_at self.old parent }
        ensures here { children_at self.new parent ≡ children_at self.old parent ++ call ∷ [] }
        ensures others { (n : ℕ) → n ≢ parent → children_at self.new n ≡ children_at self.old n }
        ensures many { length self.new.lists.items ≡ length self.old.lists.items }
        ensures room { vec_capacity self.new.lists ≡ vec_capacity self.old.lists }
    {
        self.lists[parent as usize].push_reserved(call);
    }
}
