use crate::register_write::RegisterWrite;

/// What a word of `receive` may set, once.
#[derive(Clone, Copy, Default)]
pub(crate) enum Setting {
    #[default]
    Packet,
    Buffers,
    Bytes,
    Mode,
    Window,
    Timeout,
    Age,
    Rounds,
    Silence,
    Output,
    Until,
    Progress,
    Digest,
}

/// What a word sets, and to what.
#[derive(Clone, Copy, Default)]
pub(crate) struct Choice {
    pub setting: Setting,
    pub value: u32,
}

/// What a word of `receive` says.
#[derive(Clone, Copy)]
pub(crate) enum ReceiveWord {
    Write(RegisterWrite),
    Choose(Choice),
}
