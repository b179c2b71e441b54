ghost use Rattle.lr_server.specs.Looked.{LooksAreTold};

/// What a look shows is told by the objects, at each moment that a clock shows: all keys that stand
/// for the same objects show the same frame.
pub fn looks_are_told_by_the_objects()
    ensures { LooksAreTold }
{}
