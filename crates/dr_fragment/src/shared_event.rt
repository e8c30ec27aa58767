ghost use Rattle.std.specs.Prelude.{◌≡◌, IfOk};

use dr_base::Event;
use std::alloc::{AllocError, Global};
use std::marker::Model;
use std::sync::Arc;

/// An event that a timeline, its snapshots and whoever sent it share. A contract sees the event.
#[derive(Drop)]
pub struct SharedEvent(Arc<Event>);

impl Model for SharedEvent {
    ghost use Rattle.std.specs.Arc.{arc_value};
    ghost use Rattle.dr_base.specs.declared.event.Event.{Event};

    ghost Value = { Event };

    ghost view = { λ s. arc_value s.0 };
}

impl SharedEvent {
    /// An event to share. The only error is that memory ran out.
    pub fn new(alloc: Global, event: Event) -> Result<SharedEvent, AllocError>
        ensures { IfOk result (λ shared. shared ≡ event) }
    {
        Ok(SharedEvent(Arc::new(alloc, event)?))
    }

    /// The event.
    #[inline]
    pub fn event(&self) -> &Event
        ensures { result.now ≡ self.now }
    {
        &self.0
    }

    /// Another share of the same event, which copies nothing. The only error is that there are 2^63 shares.
    pub fn share(&self) -> Result<SharedEvent, AllocError>
        ensures { IfOk result (λ shared. shared ≡ self.now) }
    {
        Ok(SharedEvent(Arc::try_clone(&self.0)?))
    }
}
