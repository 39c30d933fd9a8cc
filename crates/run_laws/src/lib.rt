//! Laws of runs: what is known of the values of a shader wherever its run comes to, and that shaders whose parts do alike mean the
//! same. Each function does nothing: its contract is the law.
#![tactic(auto)]

ghost use Rattle.run_laws.specs.Agree.{AlikePartsMeanSame, ChangedPartsMeanSame};
ghost use Rattle.run_laws.specs.Central.{ValidIsKnown};
ghost use Rattle.run_laws.specs.EndsLaws.{ValidEnds};
ghost use Rattle.run_laws.specs.InPlace.{InPlaceKeeps};
ghost use Rattle.run_laws.specs.KindsLaws.{RunsByKinds};

/// A run asks for the kinds of the values that are used, and of no other.
pub fn runs_ask_for_the_kinds_of_what_is_used()
    ensures { RunsByKinds }
{}

/// A run of a valid shader ends at its end, or is cut: no jump leaves it.
pub fn runs_of_valid_shaders_end_or_are_cut()
    ensures { ValidEnds }
{}

/// Wherever a run of a valid shader comes to, and where it ends, each value that is defined on every path there has what
/// its instruction makes of its sources, and the components that its kind says.
pub fn what_is_known_holds_wherever_a_run_comes_to()
    ensures { ValidIsKnown }
{}

/// A shader means the same where its phis, instructions and conditions are changed in place, each so that it does what it did in
/// states in which what is known holds and the values that are kept agree.
pub fn shaders_changed_in_parts_mean_the_same()
    ensures { ChangedPartsMeanSame }
{}

/// Shaders mean the same that are alike part by part, or list by list where a list was changed as a whole.
pub fn shaders_alike_in_parts_mean_the_same()
    ensures { AlikePartsMeanSame }
{}

/// A shader stays shaped and valid and means the same where instructions stand in the place of one, compute what it computes
/// wherever what is known holds, fit, and read what is defined there.
pub fn placed_instructions_keep_meaning()
    ensures { InPlaceKeeps }
{}
