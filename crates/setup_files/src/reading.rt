//! Files of a limited length.

ghost use Rattle.std.specs.Prelude.{◌≡◌, ◌≤◌, ◌<◌, true, false, IfSome, IfOk, Err, length, MatchResult};
ghost use Rattle.hii_bytes.specs.Watching.{inner_of, has_failed};

use hii_bytes::Watched;
use std::alloc::Global;
use std::io::Read;

/// Why a file was not read.
#[derive(Clone, Copy, PartialEq, Eq)]
pub enum ReadError {
    /// The file has more bytes than the limit.
    TooLong,
    /// An allocation failed.
    NoMemory,
    /// A read was a fault.
    Fault,
}

/// The most bytes that a file may have.
pub const FILE_LIMIT: u64 = 16_777_216;

const LIMIT: usize = FILE_LIMIT as usize;

// The most bytes of one read.
const PIECE: usize = 4096;

/// All bytes that the reader has, at most 16,777,216, where no read failed. More are refused by `TooLong`; a fault and an allocation
/// that fails are told apart by whether the reader has failed. The bytes take no more room than they need; where there is none for
/// the smaller block, they keep the larger one.
pub fn read_whole<R: Read>(alloc: Global, reader: &mut Watched<R>) -> Result<Vec<u8>, ReadError>
    ensures whole { IfSome (R.remaining (inner_of reader.old)) (λ all. MatchResult result
        (λ bytes. (bytes.items ≡ all) × (length all ≤ FILE_LIMIT)) (λ e. e ≡ ReadError.TooLong
        → FILE_LIMIT < length all)) }
    ensures limit { IfOk result (λ bytes. length bytes.items ≤ FILE_LIMIT) }
    ensures fault { result ≡ Err ReadError.Fault → has_failed reader.new ≡ true }
    ensures memory { result ≡ Err ReadError.NoMemory → has_failed reader.new ≡ false }
    ensures sound { IfOk result (λ bytes. has_failed reader.new ≡ false) }
{
    let mut bytes = Vec::new(alloc);
    let mut piece = [0u8; PIECE];
    while bytes.len() <= LIMIT {
        let room = (LIMIT + 1 - bytes.len()).min(PIECE);
        let buf = &mut piece[..room];
        let n = match reader.read(buf) {
            Ok(n) => n,
            Err(_) => return Err(ReadError::Fault),
        };
        if n == 0 {
            bytes.shrink_to_fit();
            return Ok(bytes);
        }
        if bytes.extend_from_slice(&buf[..n]).is_err() {
            return Err(ReadError::NoMemory);
        }
    }
    Err(ReadError::TooLong)
}
