//! Laws of both readers.
ghost use Rattle.sg_platform.specs.Laws.{BadTomlExactly};

/// Not TOML is reported exactly if the bytes have no tree, of texts that are not over the limit.
pub fn bad_toml_exactly()
    ensures { BadTomlExactly }
{}
