ghost use Rattle.std.specs.Prelude.{◌≡◌, IfOk};
ghost use Rattle.dr_time.specs.Printed.{IsPrintable, instant_text};

use dr_base::Text;
use dr_time::print_instant;
use std::alloc::{AllocError, Global};

/// A time in milliseconds since the epoch, and its text.
#[derive(Debug, Drop)]
pub(crate) struct Stamp {
    pub time: i64,
    pub text: Text,
    ghost printed: { text ≡ instant_text time },
}

impl Stamp {
    pub fn of(alloc: Global, time: i64) -> Result<Stamp, AllocError>
        requires { IsPrintable time }
        ensures { IfOk result (λ s. s.time ≡ time) }
    {
        let text = print_instant(alloc, time)?;
        Ok(Stamp { time, text })
    }
}
