//! What the definitions say of requests, proved of all of them: functions with empty bodies.

ghost use Rattle.std.specs.Prelude.{◌≡◌, ◌≢◌, ℕ, ◌-◌, List, ◌∷◌, ◌++◌, length, slice_index, Some, None, map, nat_lt, if◌then◌else◌};
ghost use Rattle.lpt_packet.specs.Numbers.{IsOctets};
ghost use Rattle.lpt_packet.specs.Sizes.{longest_packet};
ghost use Rattle.lpt_pus.specs.declared.failure_code.FailureCode.TheVariants.{UnknownRequest, MalformedBody, UnknownMemory, ReplyTooLong};
ghost use Rattle.lpt_pus.specs.Commands.{Command, command_in};
ghost use Rattle.lpt_memory.specs.declared.request.AreaRange.{AreaRange};
ghost use Rattle.lpt_memory.specs.Requests.{LoadArea, Request, front_load_area, front_range, request_in};
ghost use Rattle.lpt_memory.specs.Spellings.{load_area_text, range_text, body_text, LoadAreaFits, RangeFits, AreAreas};
ghost use Rattle.lpt_memory.specs.declared.request.Area.{Area};
ghost use Rattle.lpt_memory.specs.Memories.{Contents, sizes_of, content_of, put_all, memories_loaded, effect};
ghost use Rattle.lpt_memory.specs.Given.{accesses, put_each, octets_written};
ghost use Rattle.lpt_memory.specs.Overlaps.{Covers, NoneCovers};
ghost use Rattle.lpt_memory.specs.Ranges.{AreasFit};
ghost use Rattle.lpt_memory.specs.Meanings.{Meaning, Sizes, Silent, Fault, Load, Dump, Check, size_of, load_fault, range_fault, dump_length, area, unless, body_meaning, meaning};

/// What a message means, by what its octets are: nothing if they are no telecommand of this APID,
/// an unknown request if its service and subtype are none that is known, and otherwise what its
/// body means.
pub fn meanings_follow_octets()
    ensures silent { (apid : ℕ) (sizes : Sizes) (message : List ℕ)
        → command_in apid message ≡ None → meaning apid sizes message ≡ Silent }
    ensures body { (apid : ℕ) (sizes : Sizes) (message : List ℕ) (c : Command)
        → command_in apid message ≡ Some c
        → meaning apid sizes message ≡ body_meaning sizes c.service c.subtype c.body }
    ensures service { (sizes : Sizes) (service subtype : ℕ) (body : List ℕ)
        → service ≢ 6 → body_meaning sizes service subtype body ≡ Fault UnknownRequest }
    ensures subtype { (sizes : Sizes) (subtype : ℕ) (body : List ℕ)
        → subtype ≢ 2 → subtype ≢ 5 → subtype ≢ 9
        → body_meaning sizes 6 subtype body ≡ Fault UnknownRequest }
{}

/// The body of a load is read exactly if it is encoded so.
pub fn load_bodies_are_read()
    ensures spelled { (memory : ℕ) (areas : List LoadArea) → AreAreas LoadAreaFits areas
        → request_in front_load_area (body_text load_area_text memory areas)
        ≡ Some (record { memory = memory; areas = areas }) }
    ensures only { (body : List ℕ) (r : Request LoadArea) → IsOctets body
        → request_in front_load_area body ≡ Some r
        → (body ≡ body_text load_area_text r.memory r.areas) × AreAreas LoadAreaFits r.areas }
{}

/// The body of a dump or a check is read exactly if it is encoded so.
pub fn range_bodies_are_read()
    ensures spelled { (memory : ℕ) (ranges : List AreaRange) → AreAreas RangeFits ranges
        → request_in front_range (body_text range_text memory ranges)
        ≡ Some (record { memory = memory; areas = ranges }) }
    ensures only { (body : List ℕ) (r : Request AreaRange) → IsOctets body
        → request_in front_range body ≡ Some r
        → (body ≡ body_text range_text r.memory r.areas) × AreAreas RangeFits r.areas }
{}

/// What a load means, by the encoding of its body: malformed if it has none; an unknown memory;
/// otherwise the first fault of its areas, or the load.
pub fn load_meanings_follow_bodies()
    ensures malformed { (sizes : Sizes) (body : List ℕ) → IsOctets body
        → ((memory : ℕ) (areas : List LoadArea) → AreAreas LoadAreaFits areas
        → ¬ (body ≡ body_text load_area_text memory areas))
        → body_meaning sizes 6 2 body ≡ Fault MalformedBody }
    ensures unknown { (sizes : Sizes) (memory : ℕ) (areas : List LoadArea)
        → AreAreas LoadAreaFits areas
        → size_of memory sizes ≡ None
        → body_meaning sizes 6 2 (body_text load_area_text memory areas) ≡ Fault UnknownMemory }
    ensures known { (sizes : Sizes) (memory size : ℕ) (areas : List LoadArea)
        → AreAreas LoadAreaFits areas
        → size_of memory sizes ≡ Some size
        → body_meaning sizes 6 2 (body_text load_area_text memory areas)
        ≡ unless (load_fault size areas) (Load memory (map area areas)) }
{}

/// What a dump or a check means, by the encoding of its body: malformed if it has none; an unknown
/// memory; otherwise a range that isn't within it; then a dump whose answer is too long; and
/// otherwise the dump or the check.
pub fn range_meanings_follow_bodies()
    ensures malformed { (sizes : Sizes) (body : List ℕ) → IsOctets body
        → ((memory : ℕ) (ranges : List AreaRange) → AreAreas RangeFits ranges
        → ¬ (body ≡ body_text range_text memory ranges))
        → (body_meaning sizes 6 5 body ≡ Fault MalformedBody) × (body_meaning sizes 6 9 body ≡ Fault MalformedBody) }
    ensures unknown { (sizes : Sizes) (memory : ℕ) (ranges : List AreaRange)
        → AreAreas RangeFits ranges
        → size_of memory sizes ≡ None
        → (body_meaning sizes 6 5 (body_text range_text memory ranges) ≡ Fault UnknownMemory)
        × (body_meaning sizes 6 9 (body_text range_text memory ranges) ≡ Fault UnknownMemory) }
    ensures dump { (sizes : Sizes) (memory size : ℕ) (ranges : List AreaRange)
        → AreAreas RangeFits ranges
        → size_of memory sizes ≡ Some size
        → body_meaning sizes 6 5 (body_text range_text memory ranges)
        ≡ unless (range_fault size ranges)
        (if nat_lt longest_packet (dump_length ranges) then Fault ReplyTooLong else Dump memory ranges) }
    ensures check { (sizes : Sizes) (memory size : ℕ) (ranges : List AreaRange)
        → AreAreas RangeFits ranges
        → size_of memory sizes ≡ Some size
        → body_meaning sizes 6 9 (body_text range_text memory ranges)
        ≡ unless (range_fault size ranges) (Check memory ranges) }
{}

/// No message changes the sizes of the memories.
pub fn sizes_stay()
    ensures { (apid : ℕ) (message : List ℕ) (ms : Contents)
        → sizes_of (effect (meaning apid (sizes_of ms) message) ms) ≡ sizes_of ms }
{}

/// Of the areas of a load that go to one place, the last gives its octet. What none goes to stays.
pub fn later_wins()
    ensures last { (content : List ℕ) (earlier : List Area) (a : Area) (later : List Area)
        → (place : ℕ)
        → AreasFit (length content) (earlier ++ a ∷ later)
        → Covers place a
        → NoneCovers place later
        → slice_index (put_all content (earlier ++ a ∷ later)) place
        ≡ slice_index a.octets (place - a.address) }
    ensures untouched { (content : List ℕ) (areas : List Area) (place : ℕ)
        → AreasFit (length content) areas
        → NoneCovers place areas
        → slice_index (put_all content areas) place ≡ slice_index content place }
{}

/// A load puts its areas over the memory that it names, and changes no other.
pub fn loads_one_memory()
    ensures named { (id : ℕ) (areas : List Area) (content : List ℕ) (ms : Contents)
        → content_of id ms ≡ Some content
        → content_of id (memories_loaded id areas ms) ≡ Some (put_all content areas) }
    ensures others { (id other : ℕ) (areas : List Area) (ms : Contents) → id ≢ other
        → content_of other (memories_loaded id areas ms) ≡ content_of other ms }
{}

/// What is written of a message, access by access, is what it makes of the memories.
pub fn writes_are_the_effect()
    ensures { (m : Meaning) (ms : Contents) → put_each (accesses m) (octets_written m) ms
        ≡ effect m ms }
{}
