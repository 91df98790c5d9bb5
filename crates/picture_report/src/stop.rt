use frame_pictures::NoPicture;

/// Why a picture wasn't written.
#[derive(Clone, Copy, Debug, PartialEq, Eq)]
pub enum PictureStop {
    /// There is none. Nothing was written.
    NoPicture(NoPicture),
    /// Writing failed, behind a front of the picture.
    WriteFault,
    /// Memory ran out. Nothing was written.
    NoMemory,
}
