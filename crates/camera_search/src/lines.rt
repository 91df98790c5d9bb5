ghost use Rattle.std.specs.Prelude.{◌≡◌, ◌++◌, OnOk};
ghost use Rattle.camera_search.specs.CameraLine.{camera_line, count_line};

use crate::adding::add;
use crate::discovery_ack::DiscoveryAck;
use crate::piece::Piece;
use gev_types::NoMemory;

/// Adds the line of a camera.
pub fn add_camera(out: &mut Vec<u8>, camera: &DiscoveryAck) -> Result<(), NoMemory>
    ensures { OnOk result (out.new.items ≡ out.old.items ++ camera_line camera.now) }
{
    add(
        out,
        &[
            Piece::Text(b"camera "),
            Piece::Address(camera.current_ip),
            Piece::Text(b" mac="),
            Piece::Mac(&camera.mac_address),
            Piece::Text(b" mask="),
            Piece::Address(camera.current_subnet_mask),
            Piece::Text(b" manufacturer=\""),
            Piece::Shown(&camera.manufacturer_name),
            Piece::Text(b"\" model=\""),
            Piece::Shown(&camera.model_name),
            Piece::Text(b"\" version=\""),
            Piece::Shown(&camera.device_version),
            Piece::Text(b"\" serial=\""),
            Piece::Shown(&camera.serial_number),
            Piece::Text(b"\" name=\""),
            Piece::Shown(&camera.user_defined_name),
            Piece::Text(b"\"\n"),
        ],
    )
}

/// Adds the last line, behind those of so many cameras.
pub fn add_count(out: &mut Vec<u8>, cameras: usize) -> Result<(), NoMemory>
    ensures { OnOk result (out.new.items ≡ out.old.items ++ count_line cameras) }
{
    add(
        out,
        &[
            Piece::Text(b"end cameras="),
            Piece::Number(cameras as u64),
            Piece::Text(b"\n"),
        ],
    )
}
