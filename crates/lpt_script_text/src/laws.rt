//! What the definitions say of requests, proved of all of them: a function with an empty body.

ghost use Rattle.std.specs.Prelude.{◌≡◌, ℕ, ◌∷◌, List, length, Some};
ghost use Rattle.lpt_memory.specs.declared.request.AreaRange.{AreaRange};
ghost use Rattle.lpt_memory.specs.Requests.{LoadArea, front_load_area, front_range, request_in};
ghost use Rattle.lpt_script_text.specs.Areas.{areas_at};

/// Of a request that is read, these are its memory, the number of its areas, and the address and
/// the length of the first.
pub fn requests_have_areas()
    ensures load { (body : List ℕ) (memory : ℕ) (a : LoadArea) (rest : List LoadArea)
        → request_in front_load_area body ≡ Some (record { memory = memory; areas = a ∷ rest })
        → areas_at body ≡ Some (record {
          memory = memory;
          count = length (a ∷ rest);
          address = a.address;
          len = length a.octets;
        }) }
    ensures ranges { (body : List ℕ) (memory : ℕ) (r : AreaRange) (rest : List AreaRange)
        → request_in front_range body ≡ Some (record { memory = memory; areas = r ∷ rest })
        → areas_at body ≡ Some (record {
          memory = memory;
          count = length (r ∷ rest);
          address = r.address;
          len = r.len;
        }) }
{}
