//! Three binds, what goes back where one fails, and the clocks beside them.

ghost use Rattle.std.specs.Prelude.{◌≡◌, ◌+◌, ◌≤◌, ℕ, [], ◌∷◌, IfOk, OnOk, OnErr};
ghost use Rattle.gev_links.specs.Faults.{Rose};
ghost use Rattle.gev_links.specs.Given.{one_more};
ghost use Rattle.gev_links.specs.Links.{IsBlank};
ghost use Rattle.gev_links.specs.PortsState.{IsNew};
ghost use Rattle.gev_program.specs.Bound.{AllToldOfThree, GivesBack, more_binds};
ghost use Rattle.gev_program.specs.Runs.{IsUntold};

use gev_links::{Failed, Ports};
use gev_live::Ends;

/// Takes three clocks of the ports, beside these links.
fn with_clocks<P: Ports>(
    ports: &mut P,
    camera: P::L,
    stream: P::L,
    control: P::L,
) -> Ends<P::L, P::L, P::C>
    requires camera { IsNew (P.L.received camera) (P.L.sent camera) (P.L.faults camera) }
    requires stream { IsNew (P.L.received stream) (P.L.sent stream) (P.L.faults stream) }
    requires control { IsNew (P.L.received control) (P.L.sent control) (P.L.faults control) }
    ensures untold { IsUntold result.told }
    ensures camera { result.camera ≡ camera }
    ensures stream { result.stream ≡ stream }
    ensures control { result.control ≡ control }
    ensures camera_clock { IsBlank (P.C.told result.camera_clock) }
    ensures host_clock { IsBlank (P.C.told result.host_clock) }
    ensures app_clock { IsBlank (P.C.told result.app_clock) }
    ensures binds { P.binds ports.new ≡ P.binds ports.old }
    ensures bound { P.bound ports.new ≡ P.bound ports.old }
    ensures links { P.links ports.new ≡ P.links ports.old }
    ensures clocks { P.clocks ports.new ≡ P.clocks ports.old }
    ensures faults { P.faults ports.new ≡ P.faults ports.old }
{
    let camera_clock = ports.clock();
    let host_clock = ports.clock();
    let app_clock = ports.clock();
    Ends {
        camera,
        stream,
        control,
        camera_clock,
        host_clock,
        app_clock,
    }
}

/// Binds the third link, and takes the clocks. Where that fails both others go back.
fn bind_last<P: Ports>(
    ports: &mut P,
    camera: P::L,
    stream: P::L,
) -> Result<Ends<P::L, P::L, P::C>, Failed>
    requires camera { IsNew (P.L.received camera) (P.L.sent camera) (P.L.faults camera) }
    requires stream { IsNew (P.L.received stream) (P.L.sent stream) (P.L.faults stream) }
    ensures camera { IfOk result (λ ends. ends.camera ≡ camera) }
    ensures stream { IfOk result (λ ends. ends.stream ≡ stream) }
    ensures control { IfOk result (λ ends. IsNew (P.L.received ends.control) (P.L.sent ends.control) (P.L.faults ends.control)) }
    ensures camera_clock { IfOk result (λ ends. IsBlank (P.C.told ends.camera_clock)) }
    ensures host_clock { IfOk result (λ ends. IsBlank (P.C.told ends.host_clock)) }
    ensures app_clock { IfOk result (λ ends. IsBlank (P.C.told ends.app_clock)) }
    ensures untold { IfOk result (λ ends. IsUntold ends.told) }
    ensures called { P.binds ports.new ≡ one_more (P.binds ports.old) }
    ensures links { OnOk result (P.links ports.new ≡ P.links ports.old) }
    ensures back { OnErr result (AllToldOfThree (P.links ports.old) (P.links ports.new) (camera ∷ stream ∷ [])) }
    ensures clocks { P.clocks ports.new ≡ P.clocks ports.old }
    ensures bound { IfOk result (λ ends. AllToldOfThree (P.bound ports.old) (P.bound ports.new) (P.L.address ends.control ∷ [])) }
    ensures no_fault { OnOk result (P.faults ports.new ≡ P.faults ports.old) }
    ensures failed { OnErr result (Rose (P.faults ports.old) (P.faults ports.new)) }
{
    match ports.bind() {
        Ok(bound) => {
            let (control, _) = bound;
            Ok(with_clocks(ports, camera, stream, control))
        }
        Err(error) => {
            ports.unbind(camera);
            ports.unbind(stream);
            Err(error)
        }
    }
}

/// Binds the second link and the third one, and takes the clocks. Where that fails what came goes back.
fn bind_two<P: Ports>(ports: &mut P, camera: P::L) -> Result<Ends<P::L, P::L, P::C>, Failed>
    requires camera { IsNew (P.L.received camera) (P.L.sent camera) (P.L.faults camera) }
    ensures camera { IfOk result (λ ends. ends.camera ≡ camera) }
    ensures stream { IfOk result (λ ends. IsNew (P.L.received ends.stream) (P.L.sent ends.stream) (P.L.faults ends.stream)) }
    ensures control { IfOk result (λ ends. IsNew (P.L.received ends.control) (P.L.sent ends.control) (P.L.faults ends.control)) }
    ensures camera_clock { IfOk result (λ ends. IsBlank (P.C.told ends.camera_clock)) }
    ensures host_clock { IfOk result (λ ends. IsBlank (P.C.told ends.host_clock)) }
    ensures app_clock { IfOk result (λ ends. IsBlank (P.C.told ends.app_clock)) }
    ensures untold { IfOk result (λ ends. IsUntold ends.told) }
    ensures called { OnOk result (P.binds ports.new ≡ more_binds 2 (P.binds ports.old)) }
    ensures links { OnOk result (P.links ports.new ≡ P.links ports.old) }
    ensures back { OnErr result ((before : ℕ) → P.binds ports.old ≡ one_more before
        → GivesBack P.L.received P.L.sent P.L.faults before (P.binds ports.new) (P.links ports.old) (P.links ports.new)) }
    ensures clocks { P.clocks ports.new ≡ P.clocks ports.old }
    ensures bound { IfOk result (λ ends. AllToldOfThree (P.bound ports.old) (P.bound ports.new) (P.L.address ends.stream ∷ P.L.address ends.control ∷ [])) }
    ensures no_fault { OnOk result (P.faults ports.new ≡ P.faults ports.old) }
    ensures failed { OnErr result (Rose (P.faults ports.old) (P.faults ports.new)) }
{
    match ports.bind() {
        Ok(bound) => {
            let (stream, _) = bound;
            bind_last(ports, camera, stream)
        }
        Err(error) => {
            ports.unbind(camera);
            Err(error)
        }
    }
}

/// Binds three links, in this order: the camera's, the stream's, the control channel's, and then takes three clocks.
/// Where a bind fails the links that came go back in the order in which they came, and no further one is bound.
pub fn bind_three<P: Ports>(ports: &mut P) -> Result<Ends<P::L, P::L, P::C>, Failed>
    ensures camera { IfOk result (λ ends. IsNew (P.L.received ends.camera) (P.L.sent ends.camera) (P.L.faults ends.camera)) }
    ensures stream { IfOk result (λ ends. IsNew (P.L.received ends.stream) (P.L.sent ends.stream) (P.L.faults ends.stream)) }
    ensures control { IfOk result (λ ends. IsNew (P.L.received ends.control) (P.L.sent ends.control) (P.L.faults ends.control)) }
    ensures camera_clock { IfOk result (λ ends. IsBlank (P.C.told ends.camera_clock)) }
    ensures host_clock { IfOk result (λ ends. IsBlank (P.C.told ends.host_clock)) }
    ensures app_clock { IfOk result (λ ends. IsBlank (P.C.told ends.app_clock)) }
    ensures untold { IfOk result (λ ends. IsUntold ends.told) }
    ensures few { P.binds ports.new ≤ P.binds ports.old + 3 }
    ensures called { OnOk result (P.binds ports.new ≡ more_binds 3 (P.binds ports.old)) }
    ensures links { OnOk result (P.links ports.new ≡ P.links ports.old) }
    ensures back { OnErr result (GivesBack P.L.received P.L.sent P.L.faults (P.binds ports.old) (P.binds ports.new) (P.links ports.old) (P.links ports.new)) }
    ensures clocks { P.clocks ports.new ≡ P.clocks ports.old }
    ensures bound { IfOk result (λ ends. AllToldOfThree (P.bound ports.old) (P.bound ports.new) (P.L.address ends.camera ∷ P.L.address ends.stream ∷ P.L.address ends.control ∷ [])) }
    ensures no_fault { OnOk result (P.faults ports.new ≡ P.faults ports.old) }
    ensures failed { OnErr result (Rose (P.faults ports.old) (P.faults ports.new)) }
{
    match ports.bind() {
        Ok(bound) => {
            let (camera, _) = bound;
            bind_two(ports, camera)
        }
        Err(error) => Err(error),
    }
}
