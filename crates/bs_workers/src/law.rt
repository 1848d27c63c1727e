//! A law of acts: acceptable acts may be made in their order.
ghost use Rattle.bs_workers.specs.Acceptable.{AcceptableLaw};

/// States that acts that are acceptable, as `run` requires them, are enabled in their order: once a
/// core has made the first of them, with any jobs between them, it accepts the next one; a stay can
/// leave once its commands are answered. Does nothing.
pub fn acts_law()
    ensures { AcceptableLaw }
{}
