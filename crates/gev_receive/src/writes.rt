//! The writes of each stage of a run.

ghost use Rattle.std.specs.Prelude.{◌≡◌, ◌≤◌, length};
ghost use Rattle.gev_receive.specs.Starting.{stage_number, is_at, plain_write, writes_at};

use arrayvec::ArrayVec;
use camera_control::RegisterWrite;
use camera_words::{RegisterWrite as Wish, Stage};

/// A number for each stage.
fn stage_number(stage: Stage) -> u8
    ensures { result ≡ stage_number stage }
{
    match stage {
        Stage::Set => 0,
        Stage::Start => 1,
        Stage::Stop => 2,
    }
}

/// Whether a write belongs to the stage.
fn is_at(stage: Stage, wish: Wish) -> bool
    ensures { result ≡ is_at stage wish }
{
    stage_number(wish.stage) == stage_number(stage)
}

/// The write without its stage.
fn plain_write(wish: Wish) -> RegisterWrite
    ensures { result ≡ plain_write wish }
{
    RegisterWrite {
        register: wish.register,
        value: wish.value,
    }
}

/// Those of these writes that belong to a stage, in order.
pub(crate) fn writes_at(stage: Stage, wishes: &[Wish]) -> ArrayVec<RegisterWrite, 64>
    requires { length wishes.now ≤ 64 }
    ensures { result.items ≡ writes_at stage wishes.now }
{
    let mut found = ArrayVec::new();
    let mut rest = wishes;
    while let [wish, behind @ ..] = rest {
        if is_at(stage, *wish) {
            found.push(plain_write(*wish));
        }
        rest = behind;
    }
    found
}
