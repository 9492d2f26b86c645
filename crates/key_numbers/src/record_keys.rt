// The key of one record, with its name or without: hashed, and compared in full.
ghost use Rattle.std.specs.Prelude.{◌≡◌};
ghost use Rattle.record_tags.specs.Lenient.{labels_of};
ghost use Rattle.key_numbers.specs.key_lookup.Keys.{same_names};
ghost use Rattle.key_numbers.specs.key_lookup.Rules.{alike_by, hash_by};

use labels::Matching;

// What the key of a record has in it: the tags that a matching chooses by a list, and its name where it is named.
#[derive(Clone, Copy)]
pub struct KeyRule<'a> {
    pub named: bool,
    pub matching: Matching,
    pub list: &'a [u8],
}

// A number that records of the same key share.
pub(crate) fn hash_key(rec: &[u8], rule: KeyRule) -> u64
    ensures { result ≡ hash_by rule.entry (labels_of rec.now) }
{
    let h = signature::hash_key(rec, rule.matching, rule.list);
    if rule.named {
        return signature::hash_bytes(h, record_tags::name_of(rec));
    }
    h
}

// Whether two records have the same name, where names are compared.
fn same_name(a: &[u8], b: &[u8], named: bool) -> bool
    ensures { result ≡ same_names named (labels_of a.now) (labels_of b.now) }
{
    !named || fields::same_bytes(record_tags::name_of(a), record_tags::name_of(b))
}

// Whether two records have the same key, compared in full. A call of its own, so that `same_key`, the test of the hashes, stays
// inlined.
#[inline(never)]
fn alike(a: &[u8], b: &[u8], rule: KeyRule) -> bool
    ensures { result ≡ alike_by rule.entry (labels_of a.now) (labels_of b.now) }
{
    same_name(a, b, rule.named) && signature::same_key(a, b, rule.matching, rule.list)
}

// Whether two records with the hashes g and h of their keys have the same key. The hashes only spare the comparison.
pub(crate) fn same_key(g: u64, a: &[u8], h: u64, b: &[u8], rule: KeyRule) -> bool
    requires g_value { g ≡ hash_by rule (labels_of a.now) }
    requires h_value { h ≡ hash_by rule (labels_of b.now) }
    ensures { result ≡ alike_by rule.entry (labels_of a.now) (labels_of b.now) }
{
    if g != h {
        return false;
    }
    alike(a, b, rule)
}
