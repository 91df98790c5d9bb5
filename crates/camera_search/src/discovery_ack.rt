/// What a camera tells of itself (GigE Vision 2.0, DISCOVERY_ACK): its bootstrap registers from the first one to
/// the user-defined name. An address is a number whose most significant byte comes first, a text ends at its
/// first zero byte.
#[derive(Clone, Copy)]
pub struct DiscoveryAck {
    /// The version of the standard: the major one in the high 16 bits, the minor one in the low.
    pub spec_version: u32,
    /// The device mode: byte order, class and character set.
    pub device_mode: u32,
    /// The MAC address.
    pub mac_address: [u8; 6],
    /// Which ways to an IP address the device knows.
    pub ip_config_options: u32,
    /// Which way it took.
    pub ip_config_current: u32,
    /// The current IP address.
    pub current_ip: u32,
    /// The current subnet mask.
    pub current_subnet_mask: u32,
    /// The current default gateway.
    pub default_gateway: u32,
    /// The manufacturer's name.
    pub manufacturer_name: [u8; 32],
    /// The model's name.
    pub model_name: [u8; 32],
    /// The device's version.
    pub device_version: [u8; 32],
    /// What the manufacturer tells besides.
    pub manufacturer_specific_information: [u8; 48],
    /// The serial number.
    pub serial_number: [u8; 16],
    /// The name that the user gave.
    pub user_defined_name: [u8; 16],
}
