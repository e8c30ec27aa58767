ghost use Rattle.std.specs.Prelude.{◌≡◌, ◌↔◌, IfOk, IsTrue};

use crate::numbers::Numbers;
use crate::texts::Texts;
use std::alloc::AllocError;

/// An event as it was read: the mark of the seat that read it, its untruncated time in milliseconds since the epoch,
/// its dimension values and its metric inputs, both in the order of the spec.
#[derive(Debug, Drop, PartialEq, Eq)]
pub struct Event {
    pub seat: u8,
    pub time: i64,
    pub dims: Texts,
    pub inputs: Numbers,
}

impl Event {
    /// Whether the other event has the same mark, time, dimension values and inputs. It takes time by their bytes at most.
    pub fn equals(&self, other: &Event) -> bool
        ensures { IsTrue result ↔ (self.now ≡ other.now) }
    {
        self == other
    }

    /// An equal event in memory of its own, but for texts of more than 14 bytes, which are shared. The only error is that
    /// memory ran out. It takes time by the number of its values, and memory for two lists of them.
    pub fn copy(&self) -> Result<Event, AllocError>
        ensures { IfOk result (λ event. event ≡ self.now) }
    {
        Ok(Event {
            seat: self.seat,
            time: self.time,
            dims: self.dims.copy()?,
            inputs: self.inputs.copy()?,
        })
    }
}
