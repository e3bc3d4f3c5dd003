// Which slots the sheets of a binder name, so that a sheet is shown a box again only where a slot of it lost an option.
ghost use Rattle.std.specs.Prelude.{◌≡◌, length};

// Of each sheet the set of the slots that it names and that a box covers. The table is as long as there can be sheets: the
// library takes no memory from a heap.
#[derive(Drop)]
pub struct Reach {
    pub(crate) masks: [u64; 1024],
    ghost long: { length masks ≡ 1024 },
}
