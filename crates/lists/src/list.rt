// A list in a caller's slice: its entries fill the slice from its front, and the slots past them are the caller's. It has
// no `impl Model`: behind a view its callers could not tell what is left in their slice.
ghost use Rattle.std.specs.Prelude.{◌≤◌, length};

pub mod entries;

#[derive(Drop)]
pub struct List<'a, T> {
    slots: &'a mut [T],
    len: usize,
    ghost fits: { len ≤ length slots.now },
}
