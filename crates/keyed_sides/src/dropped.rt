// Series with only missing readings taken out: their key number becomes one that no key has.
ghost use Rattle.std.specs.Prelude.{◌≡◌, ◌*◌, length};
ghost use Rattle.model.specs.Row.{only_missing};
ghost use Rattle.keyed_sides.specs.Dropped.{kept_number, dropped_missing};

// Whether eight readings are all missing, with no branch between them.
fn eight_missing(eight: &[u64; 8]) -> bool
    ensures { result ≡ only_missing eight.now }
{
    let mut gap = 1;
    for x in eight {
        gap &= reading::gap(*x);
    }
    gap == 1
}

// Whether a row has no reading: by eights, then what is left of it.
fn only_missing(row: &[u64]) -> bool
    ensures { result ≡ only_missing row.now }
{
    let mut rest = row;
    while let Some((eight, more)) = rest.split_first_chunk::<8>() {
        if !eight_missing(eight) {
            return false;
        }
        rest = more;
    }
    rest.iter().all(|x| reading::is_missing(*x))
}

// The number k, or that of a series that takes no part where its row has only missing readings.
fn kept_or_dropped(row: &[u64], k: usize) -> usize
    ensures { result ≡ kept_number row.now k }
{
    if only_missing(row) {
        key_ends::DROPPED
    } else {
        k
    }
}

// Takes the series with only missing readings out.
pub(crate) fn drop_missing(rows: &[u64], p: usize, keys: &mut [usize])
    requires { length rows.now ≡ length keys.old * p }
    ensures { keys.new ≡ dropped_missing p rows.now keys.old }
{
    for (i, k) in keys.iter_mut().enumerate() {
        *k = kept_or_dropped(side_parts::row(rows, p, i), *k);
    }
}
