//! What the definitions say of requests that were cut, proved of all of them: functions with empty
//! bodies.

ghost use Rattle.std.specs.Prelude.{◌≡◌, ◌+◌, ◌<◌, ◌≤◌, ℕ, List, [], ◌∷◌, length, map, Some};
ghost use Rattle.lpt_memory.specs.declared.request.Area.{Area};
ghost use Rattle.lpt_memory.specs.Memories.{Contents, content_of, memories_loaded, put_at};
ghost use Rattle.lpt_memory.specs.Ranges.{AreasFit};
ghost use Rattle.lpt_requests.specs.Cuts.{AreCut, AreasCut, as_load};
ghost use Rattle.lpt_requests.specs.Packets.{AllMean, messages_executed};

/// The loads into which areas are cut, each executed once and in their order, leave the memories as
/// one load of all the areas would, however long they are.
pub fn cut_loads_are_one_load()
    ensures areas { (apid each memory : ℕ) (areas pieces : List Area) (packets : List (List ℕ))
        (ms : Contents)
        → (content : List ℕ)
        → 0 < each
        → AreasCut each areas pieces
        → AllMean apid packets (map (as_load memory) pieces)
        → content_of memory ms ≡ Some content
        → AreasFit (length content) areas
        → messages_executed apid packets ms ≡ memories_loaded memory areas ms }

    // So the memory has the image at its address.
    ensures image { (apid each memory address : ℕ) (image : List ℕ) (pieces : List Area)
        (packets : List (List ℕ))
        → (ms : Contents) (content : List ℕ)
        → 0 < each
        → AreCut each address image pieces
        → AllMean apid packets (map (as_load memory) pieces)
        → content_of memory ms ≡ Some content
        → address + length image ≤ length content
        → content_of memory (messages_executed apid packets ms)
        ≡ Some (put_at content address image) }
{}
