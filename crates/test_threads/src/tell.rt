//! Prints the results of a row.

use ds_live::LiveFault;
use test_kit::Failure;

/// Prints lines of a word and a number.
pub(crate) fn tell(rt: &impl Print, lines: &[(&str, u128)]) -> Result<(), Failure> {
    for (word, number) in lines {
        println!(rt; "{word} {number}")?;
    }
    Ok(())
}

/// Prints why a call failed.
pub(crate) fn tell_fault(rt: &impl Print, fault: LiveFault) -> Result<(), Failure> {
    println!(rt; "{fault}")?;
    Ok(())
}
