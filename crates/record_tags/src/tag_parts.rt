// A tag as parts of a record's bytes.
ghost use Rattle.std.specs.Prelude.{◌≡◌, ◌++◌};
ghost use Rattle.model.specs.Record.{encode_field};

// A tag: its bytes as they stand in a record, and its key and its value.
#[derive(Clone, Copy)]
pub struct Tag<'a> {
    pub bytes: &'a [u8],
    pub key: &'a [u8],
    pub value: &'a [u8],
    pub ghost whole: { bytes.now ≡ encode_field key.now ++ encode_field value.now },
}
