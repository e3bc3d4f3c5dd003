// Undoes the newest marks of a binder.
ghost use Rattle.explore.specs.Rewound.{Rewound};

use binder::binders::Binder;

// As many as asked for, or all of them where there are fewer.
pub(crate) fn rewind<B: Binder>(binder: &mut B, count: usize)
    ensures { Rewound (B.Binder.meaning binder.old) (B.Binder.meaning binder.new) count }
{
    for _ in 0..count {
        let _ = binder.undo();
    }
}
