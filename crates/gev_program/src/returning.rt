//! What goes back to the ports after a run.

ghost use Rattle.std.specs.Prelude.{◌≡◌, [], ◌∷◌};
ghost use Rattle.gev_program.specs.Bound.{AllToldOfThree, RaisesBy};
ghost use Rattle.gev_program.specs.Runs.{told_by};

use gev_links::Ports;
use gev_live::Ends;

/// Gives the links and the clocks of a run back, each in this order: the camera's, the stream's, the control channel's,
/// and the camera's clock, the reader's, the application's.
pub fn give_back<P: Ports>(ports: &mut P, ends: Ends<P::L, P::L, P::C>)
    ensures links { AllToldOfThree (P.links ports.old) (P.links ports.new) (ends.camera ∷ ends.stream ∷ ends.control ∷ []) }
    ensures clocks { AllToldOfThree (P.clocks ports.old) (P.clocks ports.new) (ends.camera_clock ∷ ends.host_clock ∷ ends.app_clock ∷ []) }
    ensures binds { P.binds ports.new ≡ P.binds ports.old }
    ensures bound { P.bound ports.new ≡ P.bound ports.old }
    ensures faults { RaisesBy (P.L.faults ends.camera) (P.L.faults ends.stream) (P.L.faults ends.control) (P.faults ports.old) (P.faults ports.new) }
    ensures told { ends.told ≡ told_by P.L.received P.L.sent P.L.faults P.C.told ends.camera ends.stream ends.control ends.camera_clock ends.host_clock ends.app_clock }
{
    let Ends {
        camera,
        stream,
        control,
        camera_clock,
        host_clock,
        app_clock,
    } = ends;
    give_links(ports, camera, stream, control);
    give_clocks(ports, camera_clock, host_clock, app_clock);
}

/// Gives the links back.
fn give_links<P: Ports>(ports: &mut P, camera: P::L, stream: P::L, control: P::L)
    ensures links { AllToldOfThree (P.links ports.old) (P.links ports.new) (camera ∷ stream ∷ control ∷ []) }
    ensures clocks { P.clocks ports.new ≡ P.clocks ports.old }
    ensures binds { P.binds ports.new ≡ P.binds ports.old }
    ensures bound { P.bound ports.new ≡ P.bound ports.old }
    ensures faults { RaisesBy (P.L.faults camera) (P.L.faults stream) (P.L.faults control) (P.faults ports.old) (P.faults ports.new) }
{
    ports.unbind(camera);
    ports.unbind(stream);
    ports.unbind(control);
}

/// Gives the clocks back.
fn give_clocks<P: Ports>(ports: &mut P, first: P::C, second: P::C, third: P::C)
    ensures clocks { AllToldOfThree (P.clocks ports.old) (P.clocks ports.new) (first ∷ second ∷ third ∷ []) }
    ensures links { P.links ports.new ≡ P.links ports.old }
    ensures binds { P.binds ports.new ≡ P.binds ports.old }
    ensures bound { P.bound ports.new ≡ P.bound ports.old }
    ensures faults { P.faults ports.new ≡ P.faults ports.old }
{
    ports.unclock(first);
    ports.unclock(second);
    ports.unclock(third);
}
