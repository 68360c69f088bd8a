//! Prints results.

use desk::DeskFault;
use test_kit::Failure;

/// Prints each text followed by its number, and then the end.
pub(crate) fn tell(rt: &impl Print, numbers: &[(&str, u128)], end: &str) -> Result<(), Failure> {
    for (text, number) in numbers {
        print!(rt; "{text}{number}")?;
    }
    print!(rt; "{end}")?;
    Ok(())
}

/// Prints why a desk refused.
pub(crate) fn tell_fault(rt: &impl Print, fault: DeskFault) -> Result<(), Failure> {
    println!(rt; "refused by the desk: {fault}")?;
    Ok(())
}
