//! Places where a worker can be watched, or held.

/// How far a worker is with one event, or with turns that it makes one after the other. It holds no
/// lock at any of these.
#[derive(Clone, Copy, PartialEq, Eq, Debug)]
pub enum Stage {
    /// The event is prepared, and its step is next; or the turns are.
    BeforeApply,
    /// The step was made, or the turns were, and what they send is to be handed to the sender.
    AfterApply,
    /// Each reply, if there is any, was handed to the sender, or found no place.
    AfterPost,
}

/// What each worker passes on its way.
pub trait Gate {
    /// This worker is at this stage; it goes on if the call returns.
    fn pass(&self, worker: usize, stage: Stage);
}

/// A gate that lets everyone pass.
#[derive(Drop)]
pub struct Open;

impl Gate for Open {
    fn pass(&self, _worker: usize, _stage: Stage) {}
}
