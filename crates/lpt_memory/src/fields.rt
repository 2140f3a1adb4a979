//! Fields at the front of octets, and the head of a body. Each reader gives what stands first and the
//! octets behind it.

ghost use Rattle.std.specs.Prelude.{◌≡◌, ◌<◌, ◌≤◌, length, take, drop, option_map, IfSome};
ghost use Rattle.lpt_memory.specs.Fields.{front_octet, front_word, front_long, front_octets};
ghost use Rattle.lpt_memory.specs.Requests.{front_head};

/// One octet.
pub fn octet(bytes: &[u8]) -> Option<(u8, &[u8])>
    ensures value { option_map (λ x. (x.0, x.1.now)) result ≡ front_octet bytes.now }
    ensures behind { IfSome result (λ x. (1 ≤ length bytes.now) × (x.1.now ≡ drop 1 bytes.now)) }
{
    let (first, rest) = bytes.split_first()?;
    Some((*first, rest))
}

/// A number of 16 bits.
pub fn word(bytes: &[u8]) -> Option<(u16, &[u8])>
    ensures value { option_map (λ x. (x.0, x.1.now)) result ≡ front_word bytes.now }
    ensures behind { IfSome result (λ x. (2 ≤ length bytes.now) × (x.1.now ≡ drop 2 bytes.now)) }
{
    let (number, rest) = bytes.split_first_chunk()?;
    Some((u16::from_be_bytes(*number), rest))
}

/// A number of 32 bits.
pub fn long(bytes: &[u8]) -> Option<(u32, &[u8])>
    ensures value { option_map (λ x. (x.0, x.1.now)) result ≡ front_long bytes.now }
    ensures behind { IfSome result (λ x. (4 ≤ length bytes.now) × (x.1.now ≡ drop 4 bytes.now)) }
{
    let (number, rest) = bytes.split_first_chunk()?;
    Some((u32::from_be_bytes(*number), rest))
}

/// So many octets, at least one.
pub fn octets(bytes: &[u8], len: u16) -> Option<(&[u8], &[u8])>
    ensures value { option_map (λ x. (x.0.now, x.1.now)) result ≡ front_octets len bytes.now }
    ensures front { IfSome result (λ x. x.0.now ≡ take len bytes.now) }
    ensures some { IfSome result (λ x. (0 < length x.0.now) × (length x.0.now ≤ 65535)) }
    ensures behind { IfSome result (λ x. (len ≤ length bytes.now) × (x.1.now ≡ drop len bytes.now)) }
{
    if len == 0 {
        return None;
    }
    bytes.split_at_checked(usize::from(len))
}

/// The memory, the number of areas, and what is behind them.
#[tactic(auto, unfolding(crate::specs::Requests::front_head))]
pub fn head(body: &[u8]) -> Option<(u8, u8, &[u8])>
    ensures value { option_map (λ x. (x.0, x.1, x.2.now)) result ≡ front_head body.now }
    ensures behind { IfSome result (λ x. (2 ≤ length body.now) × (x.2.now ≡ drop 2 body.now)) }
{
    let (memory, rest) = octet(body)?;
    let (count, rest) = octet(rest)?;
    if count == 0 {
        return None;
    }
    Some((memory, count, rest))
}
