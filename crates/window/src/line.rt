// Lines of pixels, and those that a window loses and gains as its centre moves by one pixel. A line off the picture has no pixel, so that nothing
// else needs to know the border.
ghost use Rattle.std.specs.Prelude.{◌≡◌, ◌+◌, ◌-◌, ◌*◌, ◌<◌, ◌≤◌};
ghost use Rattle.spec.specs.Window.{span};
ghost use Rattle.window.specs.Line.{PlanLimits, Adjacent, column_line, row_line, shift, advance, column_step, row_step, reverse, step_of};

use spec::Plan;

// The pixels first, first + stride, .. , count of them.
#[derive(Clone, Copy)]
pub struct Line {
    pub first: usize,
    pub stride: usize,
    pub count: usize,
}

#[derive(Clone, Copy)]
pub struct Step {
    pub leaving: Line,
    pub entering: Line,
}

// How many numbers below size are at most r away from c.
#[tactic(auto, unfolding(spec::specs::Window::span))]
pub fn span_of(c: usize, r: usize, size: usize) -> usize
    requires { (c < size) × (size ≤ 1024) × (r ≤ 15) }
    ensures { result ≡ span r c size }
{
    size.min(c + r + 1) - c.saturating_sub(r)
}

// Column x over the rows of the windows of row t.
#[tactic(auto, unfolding(crate::specs::Line::column_line))]
pub fn column_line(plan: Plan, x: usize, t: usize) -> Line
    requires plan_limits { PlanLimits plan }
    requires x_bound { (x ≤ 1024) × (t < plan.height) }
    ensures { result ≡ column_line plan x t }
{
    Line {
        first: t.saturating_sub(plan.radius) * plan.width + x,
        stride: plan.width,
        count: span_of(t, plan.radius, plan.height),
    }
}

// Row y over the columns of the windows of column s.
#[tactic(auto, unfolding(crate::specs::Line::row_line))]
pub fn row_line(plan: Plan, s: usize, y: usize) -> Line
    requires plan_limits { PlanLimits plan }
    requires y_bound { (y ≤ 1024) × (s < plan.width) }
    ensures { result ≡ row_line plan s y }
{
    Line {
        first: y * plan.width + s.saturating_sub(plan.radius),
        stride: 1,
        count: span_of(s, plan.radius, plan.width),
    }
}

impl Line {
    // The line that begins so many pixels later, with no pixel where it is off the picture.
    #[tactic(auto, unfolding(crate::specs::Line::shift))]
    pub fn shifted(self, by: usize, on: bool) -> Line
        requires { self.first + by ≤ 4294967296 }
        ensures { result ≡ shift self by on }
    {
        Line {
            first: self.first + by,
            count: if on { self.count } else { 0 },
            ..self
        }
    }

    // The window's centre goes from c to c + 1 among size parallel lines: this one is at 0, and the next begins apart pixels later.
    #[tactic(auto, unfolding(crate::specs::Line::advance))]
    pub fn forward(self, apart: usize, c: usize, r: usize, size: usize) -> Step
        requires { (self.first ≤ 2097152) × (apart ≤ 1024) × (c < size) × (size ≤ 1024) × (r ≤ 15) }
        ensures { result ≡ advance self apart c r size }
    {
        let old = c.saturating_sub(r);
        let new = c + r + 1;
        Step {
            leaving: self.shifted(old * apart, r <= c),
            entering: self.shifted(new * apart, new < size),
        }
    }
}

impl Step {
    #[tactic(auto, unfolding(crate::specs::Line::reverse))]
    pub fn backward(self) -> Step
        ensures { result ≡ reverse self }
    {
        Step {
            leaving: self.entering,
            entering: self.leaving,
        }
    }
}

// From column c to c + 1 of row t.
#[tactic(auto, using(crate::proofs::FormLaws::column_low), unfolding(crate::specs::Line::column_step))]
pub fn column_step(plan: Plan, c: usize, t: usize) -> Step
    requires plan_limits { PlanLimits plan }
    requires c_lt_width { (c < plan.width) × (t < plan.height) }
    ensures { result ≡ column_step plan c t }
{
    column_line(plan, 0, t).forward(1, c, plan.radius, plan.width)
}

// From row c to c + 1 of column s.
#[tactic(auto, using(crate::proofs::FormLaws::row_low), unfolding(crate::specs::Line::row_step))]
pub fn row_step(plan: Plan, s: usize, c: usize) -> Step
    requires plan_limits { PlanLimits plan }
    requires s_lt_width { (s < plan.width) × (c < plan.height) }
    ensures { result ≡ row_step plan s c }
{
    row_line(plan, s, 0).forward(plan.width, c, plan.radius, plan.height)
}

// From (s, t) to the neighbour (s2, t2).
#[tactic(auto, unfolding(crate::specs::Line::step_of))]
pub fn step_to(plan: Plan, s: usize, t: usize, s2: usize, t2: usize) -> Step
    requires plan_limits { PlanLimits plan }
    requires adjacent { Adjacent plan s t s2 t2 }
    ensures { result ≡ step_of plan s t s2 t2 }
{
    if s < s2 {
        column_step(plan, s, t)
    } else if s2 < s {
        column_step(plan, s2, t).backward()
    } else if t < t2 {
        row_step(plan, s, t)
    } else {
        row_step(plan, s, t2).backward()
    }
}
