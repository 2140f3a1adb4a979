//! The head of a telecommand.

ghost use Rattle.std.specs.Prelude.{◌≡◌, ◌↔◌, IsSome, IfSome};
ghost use Rattle.lpt_pus.specs.Ranges.{TcFits};

/// What a telecommand's headers say (CCSDS 133.0-B, ECSS-E-ST-70-41C).
///
/// The PUS version is always 2, so it is no field.
#[derive(Clone, Copy, Debug, PartialEq, Eq)]
pub struct TcHead {
    /// The application process identifier, 0 to 2046.
    pub apid: u16,
    /// The packet sequence count, 0 to 16,383.
    pub count: u16,
    /// The acknowledgement flags, 0 to 15, a sum of: 1 acceptance, 2 start, 4 progress and
    /// 8 completion of execution.
    pub flags: u8,
    /// The service type.
    pub service: u8,
    /// The message subtype.
    pub subtype: u8,
    /// The source ID.
    pub source: u16,
    ghost in_range: { TcFits apid count flags },
}

impl TcHead {
    /// A head of these fields, or `None` if one of them is out of its range.
    pub fn new(
        apid: u16,
        count: u16,
        flags: u8,
        service: u8,
        subtype: u8,
        source: u16,
    ) -> Option<TcHead>
        ensures fits { IsSome result ↔ TcFits apid count flags }
        ensures fields { IfSome result (λ h. (h.apid ≡ apid) × (h.count ≡ count)
            × (h.flags ≡ flags) × (h.service ≡ service)
            × (h.subtype ≡ subtype) × (h.source ≡ source)) }
    {
        if apid > 2046 || count > 16383 || flags > 15 {
            return None;
        }
        Some(TcHead {
            apid,
            count,
            flags,
            service,
            subtype,
            source,
        })
    }
}
