//! Why files have no answer.
use br_path::Bytes;
use feed_io::ReadFault;
use kc_equations::SolveFault;
use kc_syntax::KcFault;
use recipe_set::PlanFault;

/// Why the files of an input have no answer: their first fault.
#[derive(Debug)]
pub enum InputFault {
    /// The files of the feed are no input.
    Read(ReadFault),
    /// The files that declare the configuration aren't read.
    Menu(KcFault),
    /// This line of `.config` has none of its forms.
    Wish(u32),
    /// The configuration isn't solved.
    Solve(SolveFault),
    /// There is no plan.
    Plan(PlanFault),
    /// A package that is asked for, which the plan doesn't have.
    NoPackage(Bytes),
}

impl Drop for InputFault {
    fn drop(self) {
        match self {
            InputFault::Read(fault) => drop(fault),
            InputFault::Menu(fault) => drop(fault),
            InputFault::Wish(_) => {}
            InputFault::Solve(fault) => drop(fault),
            InputFault::Plan(fault) => drop(fault),
            InputFault::NoPackage(name) => drop(name),
        }
    }
}
