// The four numbers of a plan, and that they are small.
ghost use Rattle.plan.specs.Bounds.{Bounded};

// All that the weaving of vectors goes by: N, p, G and SSOL, none of them so large that a count overflows.
#[derive(Clone, Copy)]
pub struct Plan {
    pub nets: usize,
    pub wide: usize,
    pub groups: usize,
    pub limit: usize,
    pub ghost small: { Bounded nets wide groups limit },
}
