//! The octets of a spacecraft that is kept: its state, and its memories with it.

ghost use Rattle.std.specs.Prelude.{◌≡◌, ℕ, ◌<◌, ◌≤◌, ◌++◌, length, IfOk, IfSome, OnOk, option_map};
ghost use Rattle.lpt_events.specs.Configs.{IsConfig};
ghost use Rattle.lpt_memory.specs.Memories.{content_of};
ghost use Rattle.lpt_state.specs.Spellings.{state_spelled};
ghost use Rattle.lpt_spacecraft.specs.Keeping.{kept_head, kept_memories, kept_memory, kept_octets, HasLength, HaveLengths, IsKept, IsReadFrom};
ghost use Rattle.lpt_spacecraft.specs.Streams.{IsIdle};

use crate::Spacecraft;
use lpt_events::Config;
use lpt_memory::Memories;
use lpt_packet::{Octets, crc16};
use lpt_state::StateFault;
use std::alloc::{AllocError, Global};
use thiserror::Error;

/// Why octets are no spacecraft that was kept.
#[derive(Clone, Copy, Debug, PartialEq, Eq, Error)]
pub enum KeptFault {
    /// They aren't what is kept of any spacecraft, or were damaged.
    #[error("this is no spacecraft that was kept, or it is damaged")]
    Damaged,
    /// The state isn't that of a spacecraft of this configuration.
    #[error("{0}")]
    State(StateFault),
    /// There is no memory for it.
    #[error("out of memory")]
    Memory,
}

impl Spacecraft {
    /// The octets that are kept of it. The only error is out of memory.
    pub fn octets_kept(&self, alloc: Global) -> Result<Vec<u8>, AllocError>
        ensures octets { IfOk result (λ v. v.items
            ≡ kept_octets (state_spelled self.now.node) self.now.memories) }
        ensures whole { OnOk result (IsKept self.now) }
    {
        let mut state = Vec::new(alloc);
        self.write_state(&mut state)?;
        octets_of(alloc, &state, &self.memories)
    }

    /// The spacecraft that was kept as these octets: what a restart leaves of it.
    ///
    /// Errors: `Damaged`; what is wrong with the state; `Memory`.
    pub fn read_kept(alloc: Global, config: &Config, octets: &[u8]) -> Result<Spacecraft, KeptFault>
        requires { IsConfig config.now }
        ensures config { IfOk result (λ s. s.config ≡ config.now) }
        ensures read { IfOk result (λ s. IsReadFrom octets.now s) }
        ensures idle { IfOk result IsIdle }
    {
        let Some((state, behind)) = parts_in(octets) else {
            return Err(KeptFault::Damaged);
        };
        let memories = memories_in(alloc, behind)?;
        let Ok(again) = octets_of(alloc, state, &memories) else {
            return Err(KeptFault::Memory);
        };
        if again.as_slice() != octets {
            return Err(KeptFault::Damaged);
        }
        match Spacecraft::resume(alloc, config, state, memories) {
            Ok(craft) => Ok(craft),
            Err(fault) => Err(KeptFault::State(fault)),
        }
    }
}

// The octets of a state and memories. The only error is out of memory.
fn octets_of(alloc: Global, state: &[u8], memories: &Memories) -> Result<Vec<u8>, AllocError>
    ensures octets { IfOk result (λ v. v.items ≡ kept_octets state.now memories.now) }
    ensures lengths { OnOk result (HaveLengths state.now memories.now) }
{
    let mut octets = Vec::new(alloc);
    add_head(&mut octets, state.len())?;
    octets.extend_from_slice(state)?;
    add_memories(&mut octets, memories)?;
    let checksum = crc16(&octets);
    octets.extend_from_slice(&checksum.to_be_bytes())?;
    Ok(octets)
}

// Appends what stands before a state of so many octets. The only error is out of memory.
#[tactic(auto, unfolding(crate::specs::Keeping::kept_head))]
fn add_head(octets: &mut Vec<u8>, len: usize) -> Result<(), AllocError>
    ensures { OnOk result (octets.new.items ≡ octets.old.items ++ kept_head len) }
{
    octets.extend_from_slice(&[b'L', b'P', b'T', b'K', 1])?;
    octets.extend_from_slice(&len.to_be_bytes())?;
    Ok(())
}

// Appends memories, by identifier. The only error is out of memory.
fn add_memories(octets: &mut Vec<u8>, memories: &Memories) -> Result<(), AllocError>
    ensures octets { OnOk result (octets.new.items
        ≡ octets.old.items ++ kept_memories 256 memories.now) }
    ensures lengths { OnOk result ((id : ℕ) → id < 256
        → HasLength (content_of id memories.now)) }
{
    for id in 0..256u16 {
        add_memory(octets, id as u8, memories.content(id as u8))?;
    }
    Ok(())
}

// Appends a memory, if there is one of this identifier. The only error is out of memory.
fn add_memory(octets: &mut Vec<u8>, id: u8, content: Option<&[u8]>) -> Result<(), AllocError>
    ensures octets { OnOk result (octets.new.items
        ≡ octets.old.items ++ kept_memory id (option_map (λ x. x.now) content.entry)) }
    ensures length { OnOk result (HasLength (option_map (λ x. x.now) content.entry)) }
{
    if let Some(content) = content {
        octets.push(id)?;
        octets.extend_from_slice(&content.len().to_be_bytes())?;
        octets.extend_from_slice(content)?;
    }
    Ok(())
}

// The state, and the octets of the memories behind it.
fn parts_in(octets: &[u8]) -> Option<(&[u8], &[u8])> {
    let (state, behind) = octets_counted(octets.strip_prefix(b"LPTK\x01")?)?;
    let (memories, _) = behind.split_last_chunk::<2>()?;
    Some((state, memories))
}

// The octets whose number stands in front of them, in 64 bits, and those behind.
fn octets_counted(octets: &[u8]) -> Option<(&[u8], &[u8])>
    ensures { IfSome result (λ x. length x.1.now ≤ length octets.now) }
{
    let (len, behind) = octets.split_first_chunk::<8>()?;
    behind.split_at_checked(u64::from_be_bytes(*len) as usize)
}

// The memories that these octets are, each with its identifier and length in front.
fn memories_in(alloc: Global, octets: &[u8]) -> Result<Memories, KeptFault> {
    let mut list = Vec::new(alloc);
    let mut left = octets;
    while let Some((id, behind)) = left.split_first() {
        let Some((content, behind)) = octets_counted(behind) else {
            return Err(KeptFault::Damaged);
        };
        let Ok(content) = content.to_vec(alloc) else {
            return Err(KeptFault::Memory);
        };
        if list.push((*id, Octets::from_vec(content))).is_err() {
            return Err(KeptFault::Memory);
        }
        left = behind;
    }
    match Memories::new(list) {
        Ok(memories) => Ok(memories),
        Err(_) => Err(KeptFault::Damaged),
    }
}
