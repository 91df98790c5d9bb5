//! How long an image is, and what is known of it, by its leader and its trailer.

ghost use Rattle.std.specs.Prelude.{◌≡◌, ◌≤◌, ◌↔◌, ◌&&◌, nat_le, IsTrue, IfSome};
ghost use Rattle.gev_types.specs.Limits.{max_buffer_size};
ghost use Rattle.block_image.specs.Extent.{size_with, extent, extent_of, TellsItsSize, TellsSizeIfLeader};
ghost use Rattle.block_image.specs.Infos.{rows_of, info_of};

use gev_types::{ImageInfo, frame_size};
use stream_packets::LeaderInfo;

/// Whether the leader tells the size of an image of all its lines, as each parsed one does.
pub fn tells_its_size(info: LeaderInfo) -> bool
    ensures { IsTrue result ↔ TellsItsSize info }
{
    let size = frame_size(
        info.pixel,
        info.size_x,
        info.size_y,
        info.padding_x,
        info.padding_y,
    );
    match size {
        Some(size) => size == info.size,
        None => false,
    }
}

/// Whether an image may have so many lines of which its leader announces `most`.
fn are_lines(lines: u32, most: u32) -> bool
    ensures { result ≡ (nat_le 1 lines && nat_le lines most) }
{
    1 <= lines && lines <= most
}

/// The size of an image of so many lines; what the leader says where it may not have so many.
fn size_with(info: LeaderInfo, lines: u32) -> u32
    requires { TellsItsSize info }
    ensures value { result ≡ size_with info lines }
    ensures within { result ≤ max_buffer_size }
{
    if !are_lines(lines, info.size_y) {
        return info.size;
    }
    let size = frame_size(
        info.pixel,
        info.size_x,
        lines,
        info.padding_x,
        info.padding_y,
    );
    size.unwrap()
}

/// How many bytes the image has, by its leader and by the lines that its trailer tells, if that was
/// kept.
pub fn extent(info: LeaderInfo, lines: Option<u32>) -> u32
    requires { TellsItsSize info }
    ensures value { result ≡ extent info lines }
    ensures within { result ≤ max_buffer_size }
{
    match lines {
        Some(lines) => size_with(info, lines),
        None => info.size,
    }
}

/// The same, where a leader was kept.
pub fn extent_of(leader: Option<LeaderInfo>, lines: Option<u32>) -> Option<u32>
    requires { TellsSizeIfLeader leader }
    ensures value { result ≡ extent_of leader lines }
    ensures within { IfSome result (λ len. len ≤ max_buffer_size) }
{
    match leader {
        Some(info) => Some(extent(info, lines)),
        None => None,
    }
}

/// How many lines the image has: those that the trailer tells, or as many as the leader announces where the
/// trailer wasn't kept, or tells none or more.
fn rows_of(info: LeaderInfo, lines: Option<u32>) -> u32
    ensures { result ≡ rows_of info lines }
{
    match lines {
        Some(lines) if are_lines(lines, info.size_y) => lines,
        _ => info.size_y,
    }
}

/// What is known of the image, where a leader was kept, by it and by the lines that its trailer tells, if
/// that was kept.
pub fn info_of(leader: Option<LeaderInfo>, lines: Option<u32>) -> Option<ImageInfo>
    ensures { result ≡ info_of leader lines }
{
    let info = leader?;
    Some(ImageInfo {
        timestamp: info.timestamp,
        pixel: info.pixel,
        size_x: info.size_x,
        size_y: info.size_y,
        rows: rows_of(info, lines),
        offset_x: info.offset_x,
        offset_y: info.offset_y,
        padding_x: info.padding_x,
        padding_y: info.padding_y,
    })
}
