// Undoes all the marks of a binder.
ghost use Rattle.binder.specs.Meaning.{Cleared};

use crate::binders::Binder;

// Each sheet then keeps what it kept at the oldest mark.
pub fn undo_all<B: Binder>(binder: &mut B)
    ensures { Cleared (B.Binder.meaning binder.old) (B.Binder.meaning binder.new) }
{
    while binder.undo().is_ok() {}
}
