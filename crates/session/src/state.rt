// Where a session is.
use binder::binders::Binder;
use planner::state::{Planner, Walk};

// Outside walks there is a planner, in a walk the walk that has used it up.
#[derive(Drop)]
pub enum Session<B: Binder> {
    Outside(Planner<B>),
    Inside(Walk<B>),
}
