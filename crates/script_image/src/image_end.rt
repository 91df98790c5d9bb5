use frame_pictures::NoPicture;
use gev_script::ScriptKind;

/// How the writing of pictures of a script's buffers ended.
#[derive(Clone, Copy, Debug, PartialEq, Eq)]
pub enum ImageEnd {
    /// The picture was written that is wanted, or where all are, those of all buffers that have one, one at least.
    Done,
    /// There is none. Nothing was written.
    NoPicture(NoPicture),
    /// This line, counted from 1, is the first that is refused. Where one picture is wanted nothing was written, else
    /// those of the lines before.
    BadLine { line: u64, kind: ScriptKind },
    /// The source failed. The same was written.
    ReadFault,
    /// The sink failed, behind a front of the pictures.
    WriteFault,
    /// Memory ran out.
    NoMemory,
}
