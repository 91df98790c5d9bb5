//! Laws over the definitions, each the contract of a function with nothing to do.

ghost use Rattle.block_image.specs.AllPackets.{AllPacketsAgree, PacketsAgree};
ghost use Rattle.block_image.specs.InfoLaws.{LeadersTellImages, RecordsTellTheirFrame, RecordsTellTheirLength};
ghost use Rattle.block_image.specs.KeptLaws.{KeepsInOrder, KeepsNoIdTwice, KeepsOneTrailer, KeepsTheFirst, KeepsWhatFits, IgnoresLeaderInfo, MissesNothing};
ghost use Rattle.block_image.specs.WorkedInfos.{InfosAreWorked};
ghost use Rattle.block_image.specs.OneBlock.{AllPacketsComplete, BytesAreInPlace, CompleteIsFrame};

/// No id stands twice among the kept packets of a block.
pub fn keeps_no_id_twice()
    ensures { KeepsNoIdTwice }
{}

/// At most one trailer is kept of a block.
pub fn keeps_one_trailer()
    ensures { KeepsOneTrailer }
{}

/// What is kept is a part of what came, in order of arrival.
pub fn keeps_in_order()
    ensures { KeepsInOrder }
{}

/// What was kept stays, whatever comes later: the first of an id is kept, and the first trailer.
pub fn keeps_the_first()
    ensures { KeepsTheFirst }
{}

/// Each kept packet is of its block, is no notice, and fits.
pub fn keeps_what_fits()
    ensures { KeepsWhatFits }
{}

/// The id of each packet that fits is kept, unless the packet is a second trailer.
pub fn misses_nothing()
    ensures { MissesNothing }
{}

/// What leaders say of the image has no part in which packets are kept.
pub fn ignores_leader_info()
    ensures { IgnoresLeaderInfo }
{}

/// A packet is one of a frame's, flags and status aside, exactly where the list of the frame's
/// packets has it.
pub fn packets_agree()
    ensures { PacketsAgree }
{}

/// All packets of a frame have come exactly where each member of their list has.
pub fn all_packets_agree()
    ensures { AllPacketsAgree }
{}

/// An image that is marked complete is its block's frame, whichever sent packets came.
pub fn complete_is_frame()
    ensures { CompleteIsFrame }
{}

/// In every image, complete or not, each byte that was received is the frame's and in its place,
/// and every other byte is 0.
pub fn bytes_are_in_place()
    ensures { BytesAreInPlace }
{}

/// A block whose packets all came, and whose buffer is large enough, is complete.
pub fn all_packets_complete()
    ensures { AllPacketsComplete }
{}

/// A record's length is that of the image that it tells.
pub fn records_tell_their_length()
    ensures { RecordsTellTheirLength }
{}

/// The image that a record tells, complete or not, is that of its own block's frame, whichever sent packets
/// came: its timestamp, pixel format, sizes, offsets and paddings.
pub fn records_tell_their_frame()
    ensures { RecordsTellTheirFrame }
{}

/// A record tells an image just where it says that a leader was kept.
pub fn leaders_tell_images()
    ensures { LeadersTellImages }
{}

/// What is told of some images, worked out by hand: each field has its own place in the leader's bytes.
pub fn infos_are_worked()
    ensures { InfosAreWorked }
{}
