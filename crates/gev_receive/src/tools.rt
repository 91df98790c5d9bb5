//! What ports give for a run, and get back.

ghost use Rattle.std.specs.Prelude.{◌≡◌, ◌≤◌, ◌+◌, [], ◌∷◌, IfOk, OnOk, OnErr};
ghost use Rattle.gev_links.specs.Faults.{Rose};
ghost use Rattle.gev_links.specs.Links.{IsBlank};
ghost use Rattle.gev_links.specs.PortsState.{IsNew};
ghost use Rattle.gev_receive.specs.Bound.{control_peer as peer_at, AllTold, FailsToBind, RaisesByTwo};

use gev_far::FarPorts;
use gev_links::{Failed, Ports};
use gev_types::Peer;

/// The port of a camera's control channel (GigE Vision 2.0, GVCP).
const CONTROL_PORT: u16 = 3956;

/// Two links towards a camera.
struct Links<L: Drop> {
    control: L,
    stream: L,
    /// The address of the stream's.
    own: Peer,
}

/// The links and clocks of a run.
#[derive(Drop)]
pub(crate) struct Ends<L: Drop, C: Drop> {
    /// The control link.
    pub(crate) control: L,
    /// The link of the stream.
    pub(crate) stream: L,
    /// The host's clock.
    pub(crate) host_clock: C,
    /// The application's clock.
    pub(crate) app_clock: C,
    /// The clock by which standard input is looked at.
    pub(crate) input_clock: C,
}

/// The control port of a camera at this address.
pub(crate) fn control_peer(address: u32) -> Peer
    ensures { result ≡ peer_at address }
{
    Peer {
        address,
        port: CONTROL_PORT,
    }
}

/// Binds the control link and the stream's. Where the second bind fails the first link goes back.
fn bind_links<P: FarPorts>(ports: &mut P, camera: Peer) -> Result<Links<P::L>, Failed>
    ensures control { IfOk result (λ links. IsNew (P.L.received links.control) (P.L.sent links.control) (P.L.faults links.control)) }
    ensures stream { IfOk result (λ links. IsNew (P.L.received links.stream) (P.L.sent links.stream) (P.L.faults links.stream)) }
    ensures bound { IfOk result (λ links. AllTold (P.bound ports.old) (P.bound ports.new) (P.L.address links.control ∷ links.own ∷ [])) }
    ensures links { OnOk result (P.links ports.new ≡ P.links ports.old) }
    ensures unbound { OnErr result (FailsToBind P.L.received P.L.sent P.L.faults (P.bound ports.old) (P.bound ports.new) (P.links ports.old) (P.links ports.new)) }
    ensures clocks { P.clocks ports.new ≡ P.clocks ports.old }
    ensures binds { P.binds ports.new ≤ P.binds ports.old + 2 }
    ensures no_fault { OnOk result (P.faults ports.new ≡ P.faults ports.old) }
    ensures failed { OnErr result (Rose (P.faults ports.old) (P.faults ports.new)) }
{
    match ports.bind_towards(camera) {
        Ok((control, _)) => match ports.bind_towards(camera) {
            Ok((stream, own)) => Ok(Links {
                control,
                stream,
                own,
            }),
            Err(error) => {
                ports.unbind(control);
                Err(error)
            }
        },
        Err(error) => Err(error),
    }
}

/// Binds two links towards a camera and takes three clocks, and tells the address of the stream's link.
pub(crate) fn bind_ends<P: FarPorts>(
    ports: &mut P,
    camera: Peer,
) -> Result<(Ends<P::L, P::C>, Peer), Failed>
    ensures control { IfOk result (λ made. IsNew (P.L.received made.0.control) (P.L.sent made.0.control) (P.L.faults made.0.control)) }
    ensures stream { IfOk result (λ made. IsNew (P.L.received made.0.stream) (P.L.sent made.0.stream) (P.L.faults made.0.stream)) }
    ensures host_clock { IfOk result (λ made. IsBlank (P.C.told made.0.host_clock)) }
    ensures app_clock { IfOk result (λ made. IsBlank (P.C.told made.0.app_clock)) }
    ensures bound { IfOk result (λ made. AllTold (P.bound ports.old) (P.bound ports.new) (P.L.address made.0.control ∷ made.1 ∷ [])) }
    ensures links { OnOk result (P.links ports.new ≡ P.links ports.old) }
    ensures unbound { OnErr result (FailsToBind P.L.received P.L.sent P.L.faults (P.bound ports.old) (P.bound ports.new) (P.links ports.old) (P.links ports.new)) }
    ensures clocks { P.clocks ports.new ≡ P.clocks ports.old }
    ensures binds { P.binds ports.new ≤ P.binds ports.old + 2 }
    ensures no_fault { OnOk result (P.faults ports.new ≡ P.faults ports.old) }
    ensures failed { OnErr result (Rose (P.faults ports.old) (P.faults ports.new)) }
{
    match bind_links(ports, camera) {
        Ok(
            Links {
                control,
                stream,
                own,
            },
        ) => {
            let host_clock = ports.clock();
            let app_clock = ports.clock();
            let input_clock = ports.clock();
            let ends = Ends {
                control,
                stream,
                host_clock,
                app_clock,
                input_clock,
            };
            Ok((ends, own))
        }
        Err(error) => Err(error),
    }
}

/// Gives the links and the clocks back, in their order.
pub(crate) fn give_back<P: FarPorts>(ports: &mut P, ends: Ends<P::L, P::C>)
    ensures links { AllTold (P.links ports.old) (P.links ports.new) (ends.control ∷ ends.stream ∷ []) }
    ensures clocks { AllTold (P.clocks ports.old) (P.clocks ports.new) (ends.host_clock ∷ ends.app_clock ∷ ends.input_clock ∷ []) }
    ensures binds { P.binds ports.new ≡ P.binds ports.old }
    ensures bound { P.bound ports.new ≡ P.bound ports.old }
    ensures faults { RaisesByTwo (P.L.faults ends.control) (P.L.faults ends.stream) (P.faults ports.old) (P.faults ports.new) }
{
    let Ends {
        control,
        stream,
        host_clock,
        app_clock,
        input_clock,
    } = ends;
    ports.unbind(control);
    ports.unbind(stream);
    ports.unclock(host_clock);
    ports.unclock(app_clock);
    ports.unclock(input_clock);
}
