// How many bytes expressions can get.
ghost use Rattle.expr_ops.specs.Bounds.{ShortestIsFew};

/// A law: with references below 2^32 an expression that `write_shortest` writes has at most three times the bytes from which it was read.
pub fn shortest_is_few()
    ensures { ShortestIsFew }
{}
