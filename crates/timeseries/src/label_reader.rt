// Label records read through a reader: the label array, borrowed, and a position in it. The work is in `label_records`.
ghost use Rattle.std.specs.Prelude.{◌≡◌};
ghost use Rattle.label_records.specs.Records.{record_answer};
ghost use Rattle.timeseries.specs.label_reader.Reads.{read_from};

use label_records::RecordFault;

#[derive(Clone, Copy)]
pub(crate) struct LabelReader<'a> {
    pub labels: &'a [u8],
    pub at: usize,
}

impl<'a> LabelReader<'a> {
    // A reader at a position of a label array.
    pub(crate) fn at(labels: &'a [u8], at: usize) -> LabelReader<'a>
        ensures { (result.labels ≡ labels.entry) × (result.at ≡ at) }
    {
        LabelReader { labels, at }
    }

    // The place behind the record at the reader's position.
    pub(crate) fn read(self) -> Result<usize, RecordFault>
        ensures { record_answer result ≡ read_from self.entry.labels.now self.entry.at }
    {
        label_records::read_record(self.labels, self.at)
    }
}
