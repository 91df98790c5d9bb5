//! What a stream is received with.

ghost use Rattle.std.specs.Prelude.{◌≡◌, ◌≤◌};
ghost use Rattle.acq_core.specs.Standing.{IsConfig};
ghost use Rattle.board_calls.specs.Calls.{IsSize};
ghost use Rattle.camera_words.specs.Receiving.{IsInRange};
ghost use Rattle.gev_receive.specs.Starting.{within, payload_size, frame_size, config_of, mode_of, buffer_size, lacks_picture, no_counts, ids_of, leader_counts, with_counts};

use acquisition_machine::{AcqConfig, Counts};
use board_calls::Mode;
use camera_words::Settings;
use first_leader::FirstLeader;
use frame_pictures::{NoPicture, fills_bytes, samples_of};
use frame_writing::{BlockIds, ReceiveCounts};
use packet_requests::IdMode;
use stream_packets::LeaderInfo;

/// The smallest payload of a packet, in bytes, and the largest one that is received.
const LEAST_PAYLOAD: u32 = 528;

const MOST_PAYLOAD: u32 = 8964;

/// The most bytes of a buffer.
const MOST_BYTES: u32 = 67_108_864;

/// The number in this range that is nearest.
fn within(low: u32, high: u32, number: u32) -> u32
    requires { low ≤ high }
    ensures value { result ≡ within low high number }
    ensures low { low ≤ result }
    ensures high { result ≤ high }
{
    number.max(low).min(high)
}

/// The most bytes of an image that a packet carries.
fn payload_size(leader: FirstLeader) -> u32
    ensures value { result ≡ payload_size leader }
    ensures low { 528 ≤ result }
    ensures high { result ≤ 8964 }
{
    within(LEAST_PAYLOAD, MOST_PAYLOAD, u32::from(leader.payload_size))
}

/// The bytes of the first frame.
fn frame_size(leader: FirstLeader) -> u32
    ensures value { result ≡ frame_size leader }
    ensures size { IsSize result }
{
    within(1, MOST_BYTES, leader.info.size)
}

/// How blocks are received. Packets are asked for again where the camera can send them again.
pub(crate) fn config_of(settings: &Settings, leader: FirstLeader, resends: bool) -> AcqConfig
    requires within { IsInRange settings.now }
    ensures value { result ≡ config_of settings.now leader resends }
    ensures config { IsConfig result }
{
    AcqConfig {
        p: payload_size(leader),
        window: settings.window,
        timeout: settings.timeout,
        age: settings.age,
        rounds: if resends { settings.rounds } else { 0 },
    }
}

/// The buffer handling mode with this number.
pub(crate) fn mode_of(number: u8) -> Mode
    ensures { result ≡ mode_of number }
{
    if number == 0 {
        Mode::OldestFirst
    } else if number == 1 {
        Mode::OldestFirstOverwrite
    } else {
        Mode::NewestOnly
    }
}

/// The bytes of each buffer.
pub(crate) fn buffer_size(settings: &Settings, leader: FirstLeader) -> u32
    requires within { IsInRange settings.now }
    ensures value { result ≡ buffer_size settings.now leader }
    ensures size { IsSize result }
{
    match settings.bytes {
        Some(bytes) => bytes,
        None => frame_size(leader),
    }
}

/// Why images of this kind have no picture, if they have none.
pub(crate) fn lacks_picture(info: LeaderInfo) -> Option<NoPicture>
    ensures { result ≡ lacks_picture info }
{
    match samples_of(info.pixel) {
        None => Some(NoPicture::PixelFormat(info.pixel)),
        Some(samples) => {
            if info.size_x == 0 || info.size_y == 0 {
                Some(NoPicture::NoPixels)
            } else if fills_bytes(samples, info.size_x) {
                None
            } else {
                Some(NoPicture::PartBytes)
            }
        }
    }
}

/// The numbers of the last line before the first leader.
pub(crate) fn no_counts(frames: u32) -> ReceiveCounts
    ensures { result ≡ no_counts frames }
{
    ReceiveCounts {
        frames,
        taken: 0,
        complete: 0,
        p: 0,
        bytes: 0,
        ids: BlockIds::Unknown,
        underrun: 0,
        requests: 0,
        foreign: 0,
        late: 0,
        repeat: 0,
        misfit: 0,
        starved: 0,
        notice: 0,
        strangers: 0,
    }
}

/// The word of the last line for a stream's identifiers.
fn ids_of(ids: IdMode) -> BlockIds
    ensures { result ≡ ids_of ids }
{
    match ids {
        IdMode::Standard => BlockIds::Standard,
        IdMode::Extended => BlockIds::Extended,
    }
}

/// The same behind it.
pub(crate) fn leader_counts(settings: &Settings, leader: FirstLeader) -> ReceiveCounts
    requires within { IsInRange settings.now }
    ensures { result ≡ leader_counts settings.now leader }
{
    let mut counts = no_counts(settings.frames);
    counts.p = payload_size(leader);
    counts.bytes = buffer_size(settings, leader);
    counts.ids = ids_of(leader.ids);
    counts
}

/// The same with what was handed out and what the receiver counted.
pub(crate) fn with_counts(
    before: ReceiveCounts,
    taken: u32,
    complete: u32,
    counts: Counts,
) -> ReceiveCounts
    ensures { result ≡ with_counts before taken complete counts }
{
    ReceiveCounts {
        frames: before.frames,
        taken,
        complete,
        p: before.p,
        bytes: before.bytes,
        ids: before.ids,
        underrun: counts.underrun,
        requests: counts.requests,
        foreign: counts.foreign,
        late: counts.late,
        repeat: counts.repeat,
        misfit: counts.misfit,
        starved: counts.starved,
        notice: counts.notice,
        strangers: before.strangers,
    }
}
