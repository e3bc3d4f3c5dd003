// The binder's marks, one for each standing try.
ghost use Rattle.std.specs.Prelude.{◌<◌};
ghost use Rattle.binder.specs.Meaning.{Noted, Undone};

use binder::binders::Binder;

// Marks what the binder keeps. There are always fewer than 72 marks where a planner does so.
pub(crate) fn save<B: Binder>(binder: &mut B)
    ensures { (B.Binder.meaning binder.old).marks < 72 → Noted (B.Binder.meaning binder.old) (B.Binder.meaning binder.new) }
{
    let _ = binder.mark();
}

// Has the binder keep again what it kept at its newest mark, if it has one, and drops that.
pub(crate) fn restore<B: Binder>(binder: &mut B)
    ensures { 0 < (B.Binder.meaning binder.old).marks → Undone (B.Binder.meaning binder.old) (B.Binder.meaning binder.new) }
{
    let _ = binder.undo();
}
