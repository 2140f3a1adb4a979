//! A telecommand or telemetry of a layout.

/// What the headers and the body of a message say. What is borrowed lies in the packet that it was
/// read from, or is to be written.
#[derive(Clone, Copy)]
pub struct Message<'a> {
    /// The application process identifier, 0 to 2046.
    pub apid: u16,
    /// The packet sequence count, 0 to 16,383.
    pub count: u16,
    /// The lower four bits of the first octet, 0 to 15: the acknowledgement flags of a telecommand;
    /// in telemetry of version 2 the spacecraft time reference status, and of version 1 spare.
    pub flags: u8,
    /// The service type.
    pub service: u8,
    /// The message subtype.
    pub subtype: u8,
    /// The message type counter, 0 if the layout has none.
    pub counter: u32,
    /// The source ID of a telecommand or the destination ID of telemetry, 0 if there is none.
    pub user: u32,
    /// The time, as octets.
    pub time: &'a [u8],
    /// The spare octets at the end of the secondary header. Any are read.
    pub spare: &'a [u8],
    /// What stands behind the secondary header.
    pub body: &'a [u8],
}
