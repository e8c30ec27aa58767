ghost use Rattle.std.specs.Prelude.{◌≡◌, not};
ghost use Rattle.dr_scan.specs.Window.{has_left, moved, takes};

/// Which of the rows that are still to come a scan gives: so many are left out first, and of the others so many are given at
/// most.
#[derive(Clone, Copy, Debug, PartialEq, Eq)]
pub(crate) struct Window {
    pub skip: u64,
    pub left: Option<u64>,
}

impl Window {
    /// Whether the next row is given, which is counted.
    pub fn takes(&mut self) -> bool
        ensures value { result ≡ takes self.old }
        ensures moved { self.new ≡ moved self.old }
    {
        if self.skip > 0 {
            self.skip -= 1;
            return false;
        }
        match self.left {
            None => true,
            Some(0) => false,
            Some(left) => {
                self.left = Some(left - 1);
                true
            }
        }
    }

    /// Whether no further row is given.
    pub fn is_over(&self) -> bool
        ensures { result ≡ not (has_left self.now.left) }
    {
        match self.left {
            None => false,
            Some(left) => left == 0,
        }
    }
}
