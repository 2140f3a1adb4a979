//! The head of telemetry.

ghost use Rattle.std.specs.Prelude.{◌≡◌, ◌↔◌, IsSome, IfSome};
ghost use Rattle.lpt_pus.specs.Ranges.{TmFits};

/// What a telemetry packet's headers say (CCSDS 133.0-B, ECSS-E-ST-70-41C).
///
/// The PUS version is always 2, so it is no field.
#[derive(Clone, Copy, Debug, PartialEq, Eq)]
pub struct TmHead {
    /// The application process identifier, 0 to 2046.
    pub apid: u16,
    /// The packet sequence count, 0 to 16,383.
    pub count: u16,
    /// The spacecraft time reference status, 0 to 15.
    pub status: u8,
    /// The service type.
    pub service: u8,
    /// The message subtype.
    pub subtype: u8,
    /// The message type counter.
    pub counter: u16,
    /// The destination ID.
    pub destination: u16,
    /// The time at which the message was made, in ticks of the sender's clock.
    pub time: u32,
    ghost in_range: { TmFits apid count status },
}

impl TmHead {
    /// A head of these fields, or `None` if one of them is out of its range.
    pub fn new(
        apid: u16,
        count: u16,
        status: u8,
        service: u8,
        subtype: u8,
        counter: u16,
        destination: u16,
        time: u32,
    ) -> Option<TmHead>
        ensures fits { IsSome result ↔ TmFits apid count status }
        ensures fields { IfSome result (λ h. (h.apid ≡ apid) × (h.count ≡ count)
            × (h.status ≡ status) × (h.service ≡ service)
            × (h.subtype ≡ subtype) × (h.counter ≡ counter)
            × (h.destination ≡ destination) × (h.time ≡ time)) }
    {
        if apid > 2046 || count > 16383 || status > 15 {
            return None;
        }
        Some(TmHead {
            apid,
            count,
            status,
            service,
            subtype,
            counter,
            destination,
            time,
        })
    }
}
