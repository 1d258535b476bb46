// The table of contents, and the check of a whole file.
ghost use Rattle.std.specs.Prelude.{◌≡◌, ◌<◌, ◌≤◌, MatchOption, length};
ghost use Rattle.runfile.specs.Table.{head_bytes, count_in, table_end};
ghost use Rattle.runfile.specs.File.{bodies_of, bad_code, code_in, code_of_file};

use crate::bad_file::BadFile;
use crate::bodies::check_body;

// The longest file, and the bytes of its head and of an entry of its table.
pub const FILE_MAX: usize = 65535;

pub const HEAD_BYTES: usize = 2;

pub const ENTRY_BYTES: usize = 4;

// The number of events that the head has; none of a file that is too short for a head.
fn head(file: &[u8]) -> Option<u16>
    ensures { MatchOption result (length file.now < head_bytes) (λ n. (head_bytes ≤ length file.now) × (n ≡ count_in file.now)) }
{
    let head = file.first_chunk::<HEAD_BYTES>()?;
    Some(u16::from_le_bytes(*head))
}

// The number of events; 0 of a file that is too short for a head.
pub fn count(file: &[u8]) -> usize
    ensures { result ≡ count_in file.now }
{
    head(file).unwrap_or(0) as usize
}

// Checks n bodies: each begins where the one before ended, and the file ends with the last; else the first bad one decides.
fn check_bodies(file: &[u8], n: usize) -> Result<(), BadFile>
    requires { table_end n ≤ length file.now }
    ensures { code_in result ≡ bad_code (bodies_of file.now n) }
{
    let mut at = HEAD_BYTES + ENTRY_BYTES * n;
    let (entries, _) = file[HEAD_BYTES..at].as_chunks::<ENTRY_BYTES>();
    let mut bodies = Ok(());
    for entry in entries {
        let offset = u16::from_le_bytes([entry[0], entry[1]]) as usize;
        let size = u16::from_le_bytes([entry[2], entry[3]]) as usize;
        if offset != at {
            return Err(BadFile::Offsets);
        }
        // Behind a bad one the others only have to follow on.
        if bodies.is_ok() {
            bodies = check_body(file, at, size);
        }
        at += size;
    }
    if at == file.len() {
        bodies
    } else {
        Err(BadFile::Offsets)
    }
}

// Whether a file is good.
pub fn check(file: &[u8]) -> Result<(), BadFile>
    ensures { code_in result ≡ code_of_file file.now }
{
    if FILE_MAX < file.len() {
        return Err(BadFile::Table);
    }
    let Some(count) = head(file) else {
        return Err(BadFile::Table);
    };
    let n = count as usize;
    if file.len() < HEAD_BYTES + ENTRY_BYTES * n {
        return Err(BadFile::Table);
    }
    check_bodies(file, n)
}
