/// What the first word of a line names. The last three are of the camera's scripts alone, as the first
/// is of a replay's; `Tick` and `End` are of both.
#[derive(Clone, Copy, Debug, PartialEq, Eq)]
pub enum Name {
    /// `gevacq`
    Header,
    /// `announce`
    Announce,
    /// `queue`
    Queue,
    /// `revoke`
    Revoke,
    /// `flush`
    Flush,
    /// `start`
    Start,
    /// `stop`
    Stop,
    /// `t`
    Tick,
    /// `d`
    Datagram,
    /// `take`
    Take,
    /// `kill`
    Kill,
    /// `event-flush`
    EventFlush,
    /// `info`
    Info,
    /// `binfo`
    BufferInfo,
    /// `open`
    OpenChild,
    /// `close`
    CloseAll,
    /// `step`
    Step,
    /// `mode`
    Mode,
    /// `end`
    End,
    /// `gevacq-camera`
    CameraHeader,
    /// `c`
    Command,
    /// `frame`
    Frame,
}
