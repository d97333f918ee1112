// A worked case, settled by the contract of a function.
ghost use Rattle.keys.specs.Facts.{PathAHashesToE40C292C};

pub fn path_a_hashes_to_e40c292c()
    ensures { PathAHashesToE40C292C }
{}
