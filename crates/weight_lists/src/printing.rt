//! Giving a line.
ghost use Rattle.weight_lists.specs.Steps.{LineMeans};

use crate::ListFault;
use palp_io::{Gave, Sink};
use palp_print::Page;

/// Gives what stands on the page.
pub(crate) fn give<O: Sink>(page: &Page, out: &mut O) -> Result<(), ListFault>
    ensures { LineMeans page.now (O.state out.old) (O.state out.new) result }
{
    match out.give(page.bytes()) {
        Gave::All => Ok(()),
        Gave::Failed => Err(ListFault::Write),
    }
}
