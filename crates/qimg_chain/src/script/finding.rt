// The numbers of the checker's findings.
ghost use Rattle.std.specs.Prelude.{◌≡◌};
ghost use Rattle.qimg_chain.specs.CheckNumbers.{check_number};

use qimg_core::check::CheckFault;

/// Returns the number of a finding for its text: the number of the `Fault` with the same meaning, or one from 23 to 27.
pub(super) fn finding_number(finding: &CheckFault) -> u8
    ensures { result ≡ check_number finding.now }
{
    match finding {
        CheckFault::Header => 4,
        CheckFault::Snapshots => 23,
        CheckFault::External => 24,
        CheckFault::Table => 5,
        CheckFault::SharedTable(_) => 25,
        CheckFault::FalseCopied(_) => 26,
        CheckFault::UnderCounted(_) => 27,
        CheckFault::Memory => 20,
        CheckFault::Storage => 21,
    }
}
