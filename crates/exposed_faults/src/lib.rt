// Whether the format can carry a series: its name and keys, its tag values, the size of its readings.
#![tactic(auto)]

mod utf8; // whether bytes are UTF-8
mod words; // whether bytes are a name or a key

ghost use Rattle.std.specs.Prelude.{◌≡◌, ◌&&◌};
ghost use Rattle.record_tags.specs.Lenient.{labels_of};
ghost use Rattle.exposition.specs.Values.{too_large};
ghost use Rattle.exposition.specs.Faults.{is_key, is_utf8, good_labels, some_too_large, fault_of};
ghost use Rattle.exposed_faults.specs.Fits.{fit_number};

fn good_tag(key: &[u8], value: &[u8]) -> bool
    ensures { result ≡ (is_key key.now && is_utf8 value.now) }
{
    words::is_word(false, key) && utf8::is_utf8(value)
}

fn good_labels(rec: &[u8]) -> bool
    ensures { result ≡ good_labels (labels_of rec.now) }
{
    words::is_word(true, record_tags::name_of(rec))
        && record_tags::tags_of(rec).all(|tag| good_tag(tag.key, tag.value))
}

// From 2 to the 40th to an infinity; what lies above is missing.
#[tactic(auto, using(crate::proofs::Readings::large_if))]
fn too_large(x: u64) -> bool
    ensures { result ≡ too_large x }
{
    let size = x % 0x8000_0000_0000_0000;
    matches!(size, 0x4270_0000_0000_0000..=0x7ff0_0000_0000_0000)
}

fn some_too_large(row: &[u64]) -> bool
    ensures { result ≡ some_too_large row.now }
{
    row.iter().any(|x| too_large(*x))
}

// Why the format cannot carry a series.
#[derive(Clone, Copy, Debug, PartialEq, Eq)]
pub enum Unfit {
    BadLabels,
    TooLarge,
}

// Whether the format can carry a series.
#[tactic(auto, unfolding(exposition::specs::Faults::fault_of))]
pub fn fit_of(rec: &[u8], row: &[u64]) -> Result<(), Unfit>
    ensures { fit_number result ≡ fault_of (labels_of rec.now) row.now }
{
    if !good_labels(rec) {
        return Err(Unfit::BadLabels);
    }
    if some_too_large(row) {
        return Err(Unfit::TooLarge);
    }
    Ok(())
}
