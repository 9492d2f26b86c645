// The name of a join's edited record: chosen, measured, and written at its place.
ghost use Rattle.std.specs.Prelude.{◌≡◌, cond, ◌+◌, ◌≤◌, length};
ghost use Rattle.model.specs.Record.{encode_field};
ghost use Rattle.labels.specs.Names.{names_of};
ghost use Rattle.writing.specs.Written.{Put};
ghost use Rattle.set_tags.specs.naming.Namings.{naming_of, name_of};

use operator::Operator;

// Where an edited record's name comes from.
#[derive(Clone, Copy)]
pub enum Naming {
    Nobody,
    Many,
    Source,
}

// The source names the record where `__name__` is a join label outside the skip list; else the many side does, unless its name is cleared.
pub fn naming_of(join: &[u8], skip: &[u8], reset: bool) -> Naming
    ensures { result ≡ naming_of (names_of join.now) (names_of skip.now) reset }
{
    if labels::in_list(skip, &Operator::METRIC_NAME) {
        return base_naming(reset);
    }
    if labels::in_list(join, &Operator::METRIC_NAME) {
        return Naming::Source;
    }
    base_naming(reset)
}

fn base_naming(reset: bool) -> Naming
    ensures { result ≡ cond reset Naming.Nobody Naming.Many }
{
    if reset { Naming::Nobody } else { Naming::Many }
}

// The bytes of an edited record's name, with their length.
pub(crate) fn naming_size(many: &[u8], source: &[u8], naming: Naming) -> usize
    ensures { result ≡ length (encode_field (name_of naming many.now source.now)) }
{
    match naming {
        Naming::Nobody => 1,
        Naming::Many => record_names::name_size(many, true),
        Naming::Source => record_names::name_size(source, true),
    }
}

// Writes an edited record's name.
pub(crate) fn put_naming(
    out: &mut [u8],
    at: usize,
    many: &[u8],
    source: &[u8],
    naming: Naming,
) -> usize
    requires { at + length (encode_field (name_of naming many.now source.now)) ≤ length out.old }
    ensures { Put out.old at (encode_field (name_of naming many.now source.now)) out.new result }
{
    match naming {
        Naming::Nobody => writing::put_byte(out, at, 0),
        Naming::Many => record_names::put_name(out, at, many, true),
        Naming::Source => record_names::put_name(out, at, source, true),
    }
}
