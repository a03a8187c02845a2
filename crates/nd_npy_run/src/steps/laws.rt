//! Laws of lists of steps, for any shape and elements. Nothing here runs: the law is what each function's `ensures`
//! clause says.

ghost use Rattle.nd_npy_run.specs.StepListLaws.{NpyStepsLeadInside, StepsLeadAlong};

use nd_steps::laws::steps_lead_inside;

/// The map of a step that isn't refused leads from each index of the result to an index of the array.
pub fn npy_steps_lead_inside()
    ensures { NpyStepsLeadInside }
{
    steps_lead_inside();
}

/// The array after steps, none of which is refused, has at each index the element that the composition of the steps'
/// maps names.
pub fn steps_lead_along<A>()
    ensures { StepsLeadAlong A }
{
    npy_steps_lead_inside();
}
