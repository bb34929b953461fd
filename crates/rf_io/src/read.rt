ghost use Rattle.std.specs.Prelude.{◌≡◌, ◌≤◌, length, IfOk, IsErrOf};
ghost use Rattle.rf_io.specs.Folder.{IsLong, IsTold, NoneFell, ReadFailed, SameFiles};
ghost use Rattle.rf_io.specs.declared.read.ReadError.TheVariants.{Memory};
ghost use Rattle.rf_io.specs.declared.read.TheConstants.{PIECE as PIECE_LENGTH};

use crate::Folder;
use std::alloc::{AllocError, Global};

/// Why a file wasn't read.
#[derive(Clone, Copy, Debug, PartialEq, Eq)]
pub enum ReadError {
    /// The file has more bytes than the limit.
    TooLong,
    /// A read of the file failed.
    Fault,
    /// Memory ran out.
    Memory,
}

impl From<AllocError> for ReadError {
    ghost from_gives = { λ _ e. e ≡ Memory };

    fn from(_: AllocError) -> ReadError {
        ReadError::Memory
    }
}

/// How many bytes a read has room for.
pub const PIECE: usize = 262144;

/// Room for the bytes of a read.
pub fn make_piece(alloc: Global) -> Result<Vec<u8>, AllocError>
    ensures { IfOk result (λ piece. length piece.items ≡ PIECE_LENGTH) }
{
    vec![in alloc; 0u8; PIECE]
}

/// All the bytes of a file, which are at most `limit`. Nothing is read past the first piece that goes
/// beyond the limit. A file that isn't there is a fault.
pub fn read_file<F: Folder>(
    alloc: Global,
    folder: &mut F,
    name: &str,
    limit: usize,
) -> Result<Vec<u8>, ReadError>
    ensures whole { IfOk result (λ bytes. IsTold (F.state folder.old) name.now bytes.items) }
    ensures short { IfOk result (λ bytes. length bytes.items ≤ limit) }
    ensures too_long { IsErrOf result ReadError.TooLong → IsLong (F.state folder.old) name.now limit }
    ensures fault { IsErrOf result ReadError.Fault → ReadFailed (F.state folder.old) (F.state folder.new) name.now }
    ensures same { SameFiles (F.state folder.old) (F.state folder.new) }
    ensures later { NoneFell (F.state folder.old) (F.state folder.new) }
{
    let mut bytes = Vec::new(alloc);
    let mut buffer = make_piece(alloc)?;
    let piece = buffer.as_mut_slice();
    loop {
        let Ok(count) = folder.read_at(name, bytes.len() as u64, piece) else {
            return Err(ReadError::Fault);
        };
        if count == 0 {
            return Ok(bytes);
        }
        if count > limit - bytes.len() {
            return Err(ReadError::TooLong);
        }
        bytes.extend_from_slice(&piece[..count])?;
    }
}
