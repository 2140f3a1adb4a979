//! What two ends and the link between them can do: each event of a world, and what an end apart can
//! do besides. It gives one open reception up before its time, it sets its clock back, it has other
//! limits from then on, and it refuses or drops its oldest request.
//!
//! There is no code here, and nothing to call. `specs/Acts` lists the acts. Histories, the model
//! and two ends apart are about acts; what is said of worlds is said of the acts that their events
//! are.
#![tactic(auto)]
