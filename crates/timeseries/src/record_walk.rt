// The records of a label array walked, through the label reader, and their positions noted.
ghost use Rattle.std.specs.Prelude.{◌≡◌, ◌+◌, ◌≤◌, ◌<◌};
ghost use Rattle.timeseries.specs.record_walk.Walks.{WalkedInto, record_fault};

use crate::VectorFault;
use crate::label_reader::LabelReader;
use label_records::RecordFault;

// The fault of the record i of a vector.
fn record_fault(fault: RecordFault, i: usize) -> VectorFault
    ensures { result ≡ record_fault fault i }
{
    match fault {
        RecordFault::Cut => VectorFault::Cut(i),
        RecordFault::BadKey => VectorFault::BadKey(i),
    }
}

// Walks n records, with no bytes behind them, and notes where each starts and where the last ends.
pub(crate) fn walk_records(array: &[u8], n: usize, at: &mut [usize; 513]) -> Result<(), VectorFault>
    requires { n ≤ 512 }
    ensures { WalkedInto n array.now at.old result at.new }
{
    let mut p: usize = 0;
    for i in 0..n {
        at[i] = p;
        p = LabelReader::at(array, p)
            .read()
            .map_err(|fault| record_fault(fault, i))?;
    }
    at[n] = p;
    if p < array.len() {
        return Err(VectorFault::Cut(n));
    }
    Ok(())
}
