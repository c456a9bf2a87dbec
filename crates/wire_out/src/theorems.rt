// A theorem about what is written: the contract of a function that does nothing.
ghost use Rattle.wire_out.specs.Theorems.{PutsByParts};

// Puts that are written one after the other are an answer.
pub fn puts_by_parts()
    ensures { PutsByParts }
{}
