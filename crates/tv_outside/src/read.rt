//! The whole content of a file.
ghost use Rattle.std.specs.Prelude.{◌≡◌, ◌<◌, ◌≤◌, IfOk, IfErr};
ghost use Rattle.tv_outside.specs.Count.{counted};
ghost use Rattle.tv_outside.specs.Told.{IsContent};
ghost use Rattle.tv_outside.specs.Outcome.{ReadCause, ReadsAtMost, UnlessFailed};
ghost use Rattle.tv_outside.specs.declared.read.ReadError.TheVariants.{Failed, Memory};

use crate::files::{self, Files};
use std::alloc::{AllocError, Global};
use thiserror::Error;

/// Why a file wasn't read.
#[derive(Clone, Copy, Debug, PartialEq, Eq, Error)]
pub enum ReadError {
    /// A call of the files failed.
    #[error("a call of the files failed")]
    Failed,
    /// The file has more bytes than the limit allows.
    #[error("the file is too long")]
    TooLong,
    /// Lack of memory.
    #[error("out of memory")]
    Memory,
}

impl From<files::Failed> for ReadError {
    ghost from_gives = { λ _ e. e ≡ Failed };

    fn from(_failed: files::Failed) -> ReadError {
        ReadError::Failed
    }
}

impl From<AllocError> for ReadError {
    ghost from_gives = { λ _ e. e ≡ Memory };

    fn from(_error: AllocError) -> ReadError {
        ReadError::Memory
    }
}

/// How many bytes are asked for at a time.
const PIECE: usize = 4096;

/// Gives the whole content of the file that `name` names, where it has at most `limit` bytes.
///
/// It begins the name once and reads at most `limit + 1` bytes, so it returns whatever the files do.
///
/// # Errors
/// `Failed` comes only where a call of `files` failed, and on steady files only where the name holds nothing.
/// `TooLong` comes exactly where the files gave more than `limit` bytes of this name. `Memory` is want of
/// memory.
pub fn read_all<F: Files>(
    alloc: Global,
    files: &mut F,
    name: &str,
    limit: usize,
) -> Result<Vec<u8>, ReadError>
    requires { limit < usize.MAX }

    ensures count { F.faults files.old ≤ F.faults files.new }
    ensures holds { F.holds files.new ≡ F.holds files.old }
    ensures begins_once { F.begins files.new ≡ counted (F.begins files.old) 1 }

    ensures content { IfOk result (λ bytes. IsContent (F.holds files.old) name.now bytes.items) }
    ensures given { ReadsAtMost result limit (F.given files.old) (F.given files.new) }
    ensures cause { IfErr result (λ e. ReadCause e (F.holds files.old) name.now limit
        (F.steady files.old) (F.faults files.old) (F.faults files.new)) }
    ensures steady { F.steady files.old
        → UnlessFailed result (F.steady files.new × (F.faults files.new ≡ F.faults files.old)) }
{
    files.begin(name)?;
    let mut content = Vec::new(alloc);
    let mut buffer = [0; PIECE];
    loop {
        let room = limit - content.len();
        let asked = (room + 1).min(PIECE);
        let count = files.piece(&mut buffer[..asked])?;
        if count == 0 {
            return Ok(content);
        }
        if count > room {
            return Err(ReadError::TooLong);
        }
        content.extend_from_slice(&buffer[..count])?;
    }
}
