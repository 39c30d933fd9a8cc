//! Laws over the definitions of valid shaders. Each function does nothing: its contract is the law.

ghost use Rattle.nir_validate.specs.Grow.{SetsOnlyGrow};
ghost use Rattle.nir_validate.specs.TypedLaws.{ValidIsTyped, ValidWhereNone};

/// A shader is valid exactly where no rule is broken.
pub fn valid_where_no_rule_is_broken()
    ensures { ValidWhereNone }
{}

/// The instructions, phis and conditions of a valid shader fit the kinds of the values that they use, and the
/// slots and buffers that are declared.
pub fn valid_shaders_are_typed()
    ensures { ValidIsTyped }
{}

/// A value that is defined on every path into a list of nodes is defined on every path out of it.
pub fn sets_only_grow()
    ensures { SetsOnlyGrow }
{}
