//! The words of steps, reasons and areas.
ghost use Rattle.std.specs.Prelude.{◌≡◌, ◌≢◌};
ghost use Rattle.br_path.specs.declared.area.Area.TheVariants.{Build as build_area};
ghost use Rattle.build_report.specs.Builds as text;

use br_path::Area;
use plan_rows::Step;
use tree_ops::ChangeFault;
use tree_worlds::Reason;

pub(crate) fn step_word(step: Step) -> &'static [u8]
    ensures { result.now ≡ text.step_word step }
{
    match step {
        Step::Populate => b"populate",
        Step::Extract => b"extract",
        Step::Patch => b"patch",
        Step::Configure => b"configure",
        Step::Build => b"build",
        Step::Host => b"host",
        Step::Staging => b"staging",
        Step::Target => b"target",
    }
}

/// The word of the reason why a line failed.
pub(crate) fn reason_word(reason: Reason) -> &'static [u8]
    ensures { result.now ≡ text.reason_word reason }
{
    match reason {
        Reason::NotFound => b"not-found",
        Reason::Syntax => b"syntax",
        Reason::Option => b"option",
        Reason::Operand => b"operand",
        Reason::False => b"false",
        Reason::Same => b"same",
        Reason::Change(fault) => change_word(fault),
    }
}

fn change_word(fault: ChangeFault) -> &'static [u8]
    ensures { result.now ≡ text.change_word fault }
{
    match fault {
        ChangeFault::Absent => b"absent",
        ChangeFault::Present => b"present",
        ChangeFault::NotDir => b"not-dir",
        ChangeFault::IsDir => b"is-dir",
        ChangeFault::IsLink => b"is-link",
        ChangeFault::NotEmpty => b"not-empty",
        ChangeFault::ReadOnly => b"read-only",
        ChangeFault::Outside => b"outside",
        ChangeFault::Loop => b"loop",
        ChangeFault::Crosses => b"crosses",
        ChangeFault::NoSpace => b"no-space",
        // A name or a path that is too long is an operand that can't be.
        ChangeFault::TooLong => b"operand",
        ChangeFault::Memory => b"",
    }
}

/// The word of an area that packages install into.
pub(crate) fn area_word(area: Area) -> &'static [u8]
    requires { area ≢ build_area }
    ensures { result.now ≡ text.area_word area }
{
    match area {
        Area::Build => unreachable!(),
        Area::Host => b"host",
        Area::Staging => b"staging",
        Area::Target => b"target",
    }
}
