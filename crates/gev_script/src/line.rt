use crate::act::Act;

/// One line of a script. Hex digits are lent from the line; they are lower-case, two for each byte.
#[derive(Clone, Copy, Debug, PartialEq, Eq)]
pub enum Line<'a> {
    /// `gevacq <version> <p> <window> <timeout> <age> <rounds>`
    Header {
        /// Of the script's form, 1 or 2: in version 2 datagrams may have standard headers.
        version: u8,
        /// The most bytes of a payload packet, 528 to 8952, in version 2 to 8964.
        p: u32,
        /// The most blocks that are open at once, 1 to 4.
        window: u8,
        /// How old a block grows before it is retired, in milliseconds, 1 to 60,000.
        timeout: u32,
        /// The age at which what is missing is requested, in milliseconds, 1 to 60,000.
        age: u32,
        /// How often it is requested, 0 to 8.
        rounds: u8,
    },
    /// `announce <size>`: a buffer of so many bytes.
    Announce {
        size: u64,
    },
    /// `queue <place>.<generation>`
    Queue {
        place: u8,
        generation: u32,
    },
    /// `revoke <place>.<generation>`
    Revoke {
        place: u8,
        generation: u32,
    },
    /// `flush <n>`: the GenTL number of the operation.
    Flush {
        operation: u32,
    },
    /// `start`
    Start,
    /// `stop <n>`: the GenTL flags.
    Stop {
        flags: u32,
    },
    /// `t <moment>`: the moment in milliseconds.
    Tick {
        moment: u64,
    },
    /// `d <hex>`: a datagram of the stream.
    Datagram {
        hex: &'a [u8],
    },
    /// `take`
    Take,
    /// `kill`
    Kill,
    /// `event-flush`
    EventFlush,
    /// `info <n>`: the GenTL number of the information.
    Info {
        which: u32,
    },
    /// `binfo <place>.<generation> <n>`
    BufferInfo {
        place: u8,
        generation: u32,
        /// The GenTL number of the information.
        which: u32,
    },
    /// `open <parent> <index>`
    OpenChild {
        /// The serial of the parent's handle; `-` is none.
        parent: Option<u64>,
        index: u32,
    },
    /// `close <serial>`
    CloseAll {
        serial: u64,
    },
    /// `step <actor> <act>` or `step <actor> <act> <place>`
    Step {
        /// 1 to 4.
        actor: u8,
        act: Act,
        /// 0 to 14, for an act on a place.
        place: Option<u8>,
    },
    /// `mode <n>`: the buffer handling mode.
    Mode {
        /// 0 to 2: oldest first, oldest first with overwrite, newest only.
        mode: u8,
    },
    /// `end`
    End,
    /// `gevacq-camera 1`
    CameraHeader,
    /// `c <peer> <hex>`: a command from the port `peer`, 1 to 65,535.
    Command {
        peer: u16,
        hex: &'a [u8],
    },
    /// `frame`
    Frame,
}
