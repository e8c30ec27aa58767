ghost use Rattle.std.specs.Prelude.{◌≡◌, IfOk, IfErr};

use dr_fragment::SharedEvent;
use std::alloc::{AllocError, AllocFailed, Global};
use std::marker::Model;
use std::sync::Arc;

/// Events that a timeline and its snapshots share. A contract sees the list of the events.
#[derive(Drop)]
pub struct Block(Arc<Vec<SharedEvent>>);

impl Model for Block {
    ghost use Rattle.std.specs.Prelude.{List};
    ghost use Rattle.std.specs.Arc.{arc_value};
    ghost use Rattle.dr_base.specs.declared.event.Event.{Event};

    ghost Value = { List Event };

    ghost view = { λ b. (arc_value b.0).items };
}

impl Block {
    /// Events to share. The only error is that memory ran out, and gives them back.
    pub fn new(
        alloc: Global,
        events: Vec<SharedEvent>,
    ) -> Result<Block, AllocFailed<Vec<SharedEvent>>>
        ensures ok { IfOk result (λ block. block ≡ events.items) }
        ensures err { IfErr result (λ failed. failed.value ≡ events) }
    {
        Ok(Block(Arc::new(alloc, events)?))
    }

    /// The events as a slice.
    pub fn as_slice(&self) -> &[SharedEvent]
        ensures { result.now ≡ self.now }
    {
        self.0.as_slice()
    }

    /// Another share of the same events.
    pub fn share(&self) -> Result<Block, AllocError>
        ensures { IfOk result (λ block. block ≡ self.now) }
    {
        Ok(Block(Arc::try_clone(&self.0)?))
    }
}
