//! Which line may follow which.

ghost use Rattle.std.specs.Prelude.{◌≢◌, IfSome};

/// What the last line was that begins with a word: where a line of content belongs, and which words
/// may come next.
#[derive(Clone, Copy, PartialEq, Eq)]
pub enum Place {
    /// No such line came yet.
    Head,
    /// A text that rows share.
    Text,
    /// A file that each row has.
    SharedFile,
    /// A row's name, or the name of a file that it doesn't have.
    Row,
    /// A file of a row.
    File,
    /// The words of a row.
    Run,
    /// A row's standard output.
    Out,
    /// A row's standard error.
    Err,
    /// A row's exit status, which ends it.
    Status,
}

impl Place {
    /// The place of a line that begins with this word, where it may follow.
    pub fn after(self, word: &str) -> Option<Place>
        ensures { IfSome result (λ place. place ≢ Place.Head) }
    {
        use Place::{Err, File, Head, Out, Row, Run, SharedFile, Status, Text};

        match (word, self) {
            ("text", Head | Text | SharedFile) => Some(Text),
            ("file", Head | Text | SharedFile) => Some(SharedFile),
            ("row", Head | Text | SharedFile | Status) => Some(Row),
            ("without", Row) => Some(Row),
            ("file", Row | File) => Some(File),
            ("run", Row | File) => Some(Run),
            ("out", Run) => Some(Out),
            ("err", Run | Out) => Some(Err),
            ("status", Run | Out | Err) => Some(Status),
            _ => None,
        }
    }
}
