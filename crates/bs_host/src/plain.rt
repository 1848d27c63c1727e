//! Files of versions without hazards, as a law.
ghost use Rattle.bs_host.specs.Plain.{PlainLaw};

/// States for every file of a version that has no hazards, every number of blocks and every stay:
/// no kept board of the stay has hazards, and no reply shows one that has. Does nothing.
pub fn plain_law()
    ensures { PlainLaw }
{}
