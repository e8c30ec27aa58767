ghost use Rattle.std.specs.Prelude.{◌≡◌, ◌++◌, IfOk, codes};
ghost use Rattle.dr_base.specs.FaultLine.{fault_line};
ghost use Rattle.dr_cli.specs.declared.cli_error.CliError.TheVariants.{NoMemory, Usage, Dump, Load};
ghost use Rattle.dr_cli.specs.Refusal.{arg_of, number_of, name_of};

use dr_base::{Arg, Text, fault_line};
use dr_dump::DumpError;
use dr_load::LoadError;
use dr_usage::UsageError;
use std::alloc::{AllocError, AllocFailed, Global};
use thiserror::Error;

/// Why the program refused what it was asked.
#[derive(Debug, Drop, Error)]
pub enum CliError {
    /// 0: memory ran out.
    #[error("out of memory")]
    NoMemory,
    /// 0 or 103: the words of the command line are none that the program takes.
    #[error(transparent)]
    Usage(UsageError),
    /// 0, 50 to 58, or 101: a file spells no image.
    #[error(transparent)]
    Dump(DumpError),
    /// Why files weren't loaded: 0 to 3, 11 to 13, 20 to 27, 60 to 62, 70 to 77, 80, 81, 90, 94, 97 or 99.
    #[error("not loaded")]
    Load(LoadError),
    /// 96: the file of that path can't be opened or read.
    #[error("{0} can't be read")]
    FileFault(Text),
}

impl CliError {
    /// The number of the refusal: 50 to 58, 96, 101, 103, or one of a load.
    pub fn number(&self) -> u16
        ensures { result ≡ number_of self.now }
    {
        match self {
            CliError::NoMemory => 0,
            CliError::Usage(error) => error.number(),
            CliError::Dump(error) => error.number(),
            CliError::Load(error) => error.number(),
            CliError::FileFault(_) => 96,
        }
    }

    /// The name of the refusal, as `FileFault`.
    pub fn name(&self) -> &'static str
        ensures { result.now ≡ name_of self.now }
    {
        match self {
            CliError::NoMemory => "NoMemory",
            CliError::Usage(error) => error.name(),
            CliError::Dump(error) => error.name(),
            CliError::Load(error) => error.name(),
            CliError::FileFault(_) => "FileFault",
        }
    }

    /// The path of the file, or the name that a load was refused for, where the refusal carries one.
    pub fn arg(self) -> Option<Arg>
        ensures { result ≡ arg_of self }
    {
        match self {
            CliError::FileFault(path) => Some(Arg::Name(path)),
            CliError::Load(error) => error.arg(),
            CliError::NoMemory | CliError::Usage(_) | CliError::Dump(_) => None,
        }
    }

    /// The line of the refusal: `refused NUMBER NAME`, the path or the name as JSON text where there is one, and a newline. The only error
    /// is that memory ran out.
    pub fn line(self, alloc: Global) -> Result<Vec<u8>, AllocError>
        ensures { IfOk result (λ line. line.items ≡ fault_line (number_of self) (name_of self) (arg_of self) ++ codes "\n") }
    {
        let (number, name) = (self.number(), self.name());
        let mut line = fault_line(alloc, number, name, self.arg())?;
        line.push(b'\n')?;
        Ok(line)
    }
}

impl From<UsageError> for CliError {
    ghost from_gives = { λ e result. result ≡ Usage e };

    fn from(error: UsageError) -> CliError {
        CliError::Usage(error)
    }
}

impl From<DumpError> for CliError {
    ghost from_gives = { λ e result. result ≡ Dump e };

    fn from(error: DumpError) -> CliError {
        CliError::Dump(error)
    }
}

impl From<LoadError> for CliError {
    ghost from_gives = { λ e result. result ≡ Load e };

    fn from(error: LoadError) -> CliError {
        CliError::Load(error)
    }
}

impl From<AllocError> for CliError {
    ghost from_gives = { λ _ e. e ≡ NoMemory };

    fn from(_error: AllocError) -> CliError {
        CliError::NoMemory
    }
}

impl<T: Drop> From<AllocFailed<T>> for CliError {
    ghost from_gives = { λ _ e. e ≡ NoMemory };

    fn from(_error: AllocFailed<T>) -> CliError {
        CliError::NoMemory
    }
}
