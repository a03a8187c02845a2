//! Laws of steps and of paths, for any shape and elements. Nothing here runs: the law is what each function's `ensures`
//! clause says.

ghost use Rattle.nd_steps.specs.StepListLaws.{StepsLeadInside, PathsLeadAlong};

use nd_array_core::laws::maps_lead_inside;

/// The map of a step that isn't refused leads from each index of the result to an index of the array.
pub fn steps_lead_inside()
    ensures { StepsLeadInside }
{
    maps_lead_inside();
}

/// What a path leads to has at each index the element that the composition of the steps' maps names.
pub fn paths_lead_along<A>()
    ensures { PathsLeadAlong A }
{
    steps_lead_inside();
}
