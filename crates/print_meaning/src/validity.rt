//! That a shader in text order is shaped and valid. Each function does nothing: its contract is the law.

ghost use Rattle.print_meaning.specs.RenumberedLaws.{RenumberedIsShaped, RenumberedIsValid};

/// Numbering a shader in text order keeps it shaped: each number still names one thing, what is used is still
/// there, and each part keeps its size.
pub fn renumbering_keeps_shape()
    ensures { RenumberedIsShaped }
{}

/// It keeps a shader valid.
pub fn renumbering_keeps_validity()
    ensures { RenumberedIsValid }
{}
