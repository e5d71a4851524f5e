// Why words ask for no command.
ghost use Rattle.std.specs.Prelude.{◌≡◌};
ghost use Rattle.clap.specs.Values.{kind_of};
ghost use Rattle.clap.specs.declared.error.kind.ErrorKind.TheVariants.{OutOfMemory};

use clap::error::ErrorKind;
use ess_rows::NoMemory;
use std::alloc::AllocError;

/// Why words ask for no command.
#[derive(Clone, Copy, Debug, PartialEq, Eq)]
pub enum WordsNo {
    /// They don't fit.
    Usage,
    /// There was no room to read them.
    NoMemory,
}

impl From<NoMemory> for WordsNo {
    ghost use Rattle.conjure_cli_words.specs.declared.no.WordsNo.{WordsNo};

    ghost from_gives = { λ value no. no ≡ WordsNo.NoMemory };

    fn from(_value: NoMemory) -> WordsNo {
        WordsNo::NoMemory
    }
}

impl From<AllocError> for WordsNo {
    ghost use Rattle.conjure_cli_words.specs.declared.no.WordsNo.{WordsNo};

    ghost from_gives = { λ value no. no ≡ WordsNo.NoMemory };

    fn from(_value: AllocError) -> WordsNo {
        WordsNo::NoMemory
    }
}

/// Why a parse failed.
pub(crate) fn no_of(error: &clap::Error) -> WordsNo
    ensures { kind_of error.now ≡ OutOfMemory → result ≡ WordsNo.NoMemory }
{
    match error.kind() {
        ErrorKind::OutOfMemory => WordsNo::NoMemory,
        _ => WordsNo::Usage,
    }
}
