//! Why nothing was posted.

use std::alloc::{AllocError, AllocFailed};
use std::error::Error;
use std::io::ErrorKind;
use std::{fmt, io};

/// Why a message wasn't posted, or wasn't taken in. `Display` shows the variant's name.
#[derive(Clone, Copy, Debug, PartialEq, Eq)]
pub enum PostError {
    /// A call failed, no reply came in time, or the reply was another one than 200. The server may have the message.
    Failed,
    /// Memory was refused.
    OutOfMemory,
}

impl fmt::Display for PostError {
    ghost use Rattle.std.specs.Prelude.{Some};
    ghost use Rattle.http_posts.specs.FaultText.{post_error_text};

    ghost output = { λ e. Some (post_error_text e) };

    fn fmt<W: fmt::Write>(&self, f: &mut fmt::Formatter<W>) -> fmt::Result {
        f.write_str(match self {
            PostError::Failed => "Failed",
            PostError::OutOfMemory => "OutOfMemory",
        })
    }
}

impl Error for PostError {}

impl From<AllocError> for PostError {
    ghost use Rattle.std.specs.Prelude.{◌≡◌};
    ghost use Rattle.http_posts.specs.declared.fault.PostError.TheVariants.{OutOfMemory};

    ghost from_gives = { λ _ e. e ≡ OutOfMemory };

    fn from(_e: AllocError) -> PostError {
        PostError::OutOfMemory
    }
}

impl<T: Drop> From<AllocFailed<T>> for PostError {
    ghost use Rattle.std.specs.Prelude.{◌≡◌};
    ghost use Rattle.http_posts.specs.declared.fault.PostError.TheVariants.{OutOfMemory};

    ghost from_gives = { λ _ e. e ≡ OutOfMemory };

    fn from(_e: AllocFailed<T>) -> PostError {
        PostError::OutOfMemory
    }
}

impl From<io::Error> for PostError {
    ghost use Rattle.std.specs.Prelude.{◌≡◌, ◌↔◌};
    ghost use Rattle.std.specs.IoError.{error_kind};
    ghost use Rattle.std.specs.declared.io.ErrorKind.TheVariants as kinds;
    ghost use Rattle.http_posts.specs.declared.fault.PostError.TheVariants.{OutOfMemory};

    ghost from_gives = { λ error e. (e ≡ OutOfMemory) ↔ (error_kind error ≡ kinds.OutOfMemory) };

    // Out of memory by its name, and any other error as a call that failed.
    fn from(error: io::Error) -> PostError {
        if error.kind() == ErrorKind::OutOfMemory {
            PostError::OutOfMemory
        } else {
            PostError::Failed
        }
    }
}
