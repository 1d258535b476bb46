ghost use Rattle.std.specs.Prelude.{◌≡◌};
ghost use Rattle.runfile.specs.File.{code_of};

// What is wrong with a run file.
#[derive(Clone, Copy, Debug, PartialEq, Eq)]
pub enum BadFile {
    // The file is too long, or its head or table is cut off.
    Table,
    // A body doesn't begin where the one before ended, or the last doesn't end with the file.
    Offsets,
    // A body's kind is none.
    UnknownKind,
    // A body is empty, or has another length than its kind and number want.
    Size,
}

// The code that a file is refused with.
impl From<BadFile> for u16 {
    ghost from_gives = { λ bad code. code ≡ code_of bad };

    fn from(bad: BadFile) -> u16 {
        match bad {
            BadFile::Table => 201,
            BadFile::Offsets => 202,
            BadFile::UnknownKind => 203,
            BadFile::Size => 204,
        }
    }
}
