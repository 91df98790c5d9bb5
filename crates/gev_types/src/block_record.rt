use crate::block_account::BlockAccount;
use crate::image_info::ImageInfo;

/// What is known of the block that a buffer holds.
///
/// The empty record, `Record::default()`, has block 0, every flag false, every number 0, no image and no account.
#[derive(Clone, Copy, Debug, Default, PartialEq, Eq)]
pub struct Record {
    /// The block id; 0 only in an empty record.
    pub block: u64,
    /// Whether each packet of the block was kept and the frame is whole.
    pub complete: bool,
    /// Whether the block has more bytes than the buffer.
    pub larger: bool,
    /// Whether a leader was kept.
    pub has_leader: bool,
    /// The length of the image in the buffer, in bytes.
    pub data_len: u32,
    /// How many bytes of the buffer were placed by payload packets.
    pub filled: u32,
    /// What is known of the image: None where no leader was kept.
    pub image: Option<ImageInfo>,
    /// What became of the block as it retired: None in a record that no retired block gave.
    pub account: Option<BlockAccount>,
}
